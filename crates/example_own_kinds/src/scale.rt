//! A closure of your own for a standard kind.
ghost use Rattle.std.specs.Prelude.{◌≡◌, ◌*◌, ◌%◌, ◌^◌, ◌∷◌, [], IfOk};
ghost use Rattle.kpn_standard.specs.Standard.{standard};
ghost use Rattle.kpn_standard.specs.Locals.{says};
ghost use Rattle.kpn_standard.specs.Signatures.{card};
ghost use Rattle.kpn_standard.specs.Admitted.{Admitted};

use crate::asked::answer_of;
use kpn_net::{Act, Answer, Card, Local, Token};
use kpn_standard::{Call, StandardBody};
use std::alloc::{AllocError, Global};

/// The number of the standard kind `scale`.
const SCALE: u16 = 6;

/// Returns the answer of a scale by `factor` after it has read a word: it writes the product modulo 2^64, and
/// returns to its first local state. Errors: out of memory.
pub fn scale_answer(alloc: Global, factor: u64, word: u64) -> Result<Answer, AllocError>
    ensures { IfOk result (λ a. a ≡ says 0 0 0 (Act.Write 0 (Token.Word ((factor * word) % 2 ^ 64)))) }
{
    let call: Call = Box::new(
        alloc,
        move |local: Local, last: Option<Token>| -> Answer
            requires { Admitted (card SCALE (factor ∷ 0 ∷ 0 ∷ [])) local last }
            ensures { result ≡ standard.answer (card SCALE (factor ∷ 0 ∷ 0 ∷ [])) local last }
        {
            let word = match last {
                Some(Token::Word(word)) if local[0] == 1 => word,
                _ => {
                    return Answer {
                        next: [1, 0, 0, 0],
                        act: Act::Read(0),
                    };
                }
            };
            Answer {
                next: [0; 4],
                act: Act::Write(0, Token::Word(factor.wrapping_mul(word))),
            }
        },
    )?;
    let args = [factor, 0, 0];
    let body = StandardBody::new(Card { kind: SCALE, args }, call);
    Ok(answer_of(body, [1, 0, 0, 0], Some(Token::Word(word))))
}
