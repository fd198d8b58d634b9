//! Networks with a known capacity that suffices.
ghost use Rattle.test_laws.specs.WorkedRoom.{TwoPlacesSuffice, NeverThree, RingLasts};

/// Ghost lemma: capacities that suffice for networks of the standard kinds, as the laws of `least_room`
/// assume.
///
/// `parks_case`: two for Parks's case with a counter of five, in a run of 46 entries. `never_three`: so no
/// channel of it ever grows to three. `ring`: one for a process that passes a token on to itself for ever.
pub fn worked_room()
    ensures parks_case { TwoPlacesSuffice }
    ensures never_three { NeverThree }
    ensures ring { RingLasts }
{}
