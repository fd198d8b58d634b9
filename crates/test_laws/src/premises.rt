//! The standard kinds are lawful, and Parks's case is a valid network of them.
ghost use Rattle.kpn_standard.specs.Standard.{standard};
ghost use Rattle.kpn_model.specs.Lawful.{AreLawful};
ghost use Rattle.kpn_model.specs.Valid.{IsValid, StaysWellTyped};
ghost use Rattle.kpn_standard.specs.Signatures.{signature};
ghost use Rattle.kpn_standard.specs.Admitted.{Admitted};
ghost use Rattle.kpn_laws.specs.Digested.{HasDigest};
ghost use Rattle.test_laws.specs.Parks.{parks, parks_digest, roomy, roomy_digest};
ghost use Rattle.test_laws.specs.Unbounded.{NamesPortsOfAnyCard};

use kpn_laws::typed_runs;
use kpn_model::Kinds;
use kpn_standard::Standard;

/// Ghost lemma: the standard kinds are lawful, so each run of a valid network of them is well-typed at each
/// moment.
///
/// `any_card`: the law of ports is false for numbers that no card can hold; a `prefix` of 2^64 would write a
/// word of more than 64 bits.
pub fn standard_kinds_are_lawful()
    ensures lawful { AreLawful signature Admitted standard }
    ensures well_typed { StaysWellTyped signature Admitted standard }
    ensures any_card { NamesPortsOfAnyCard signature Admitted standard → ⊥ }
{
    Standard::lawful();
    typed_runs::<Standard>();
}

/// Ghost lemma: Parks's case meets the premises of the laws. It is valid; its runs that are over have one
/// digest, with a growth, and there is such a run. With capacity two in the right branch they have the same
/// deeds and no growth (Parks 1995).
pub fn parks_case_meets_the_premises()
    ensures valid { IsValid signature parks }
    ensures digest { HasDigest standard parks parks_digest }
    ensures other_capacities { HasDigest standard roomy roomy_digest }
{}
