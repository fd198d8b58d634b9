//! The channel that grows: the smallest full one with a waiting writer.
ghost use Rattle.std.specs.Prelude.{◌≡◌, ℕ, ◌<◌, length, slice_get, option_map, Contains, IfSome};
ghost use Rattle.kpn_state.specs.Candidates.{IsInOrder};
ghost use Rattle.kpn_commit.specs.Candidates.{with_writer};

use kpn_model::Kinds;
use kpn_network::Net;
use kpn_state::Candidates;

/// Returns the smallest full channel, which grows (Parks 1995), and its writer; `None` if there is none.
pub fn choose<K: Kinds>(net: &Net<K>, candidates: &Candidates) -> Option<(usize, usize)>
    requires { (x : ℕ × ℕ) → Contains candidates.now.pairs x → x.1 < length net.now.channels }
    ensures first { result ≡ option_map (with_writer net.now) (slice_get candidates.now.pairs 0) }
    ensures ordered { IsInOrder candidates.now.pairs }
    ensures channel { IfSome result (λ b. b.0 < length net.now.channels) }
{
    let (_, channel) = candidates.first()?;
    Some((channel, net.ends(channel).writer))
}
