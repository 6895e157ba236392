ghost use Rattle.std.specs.Prelude.{◌≡◌, ◌<◌, ◌++◌, ◌∷◌, [], None, OnOk, Some};
ghost use Rattle.token_ring.specs.Ring.{noted, passed, ring, waiting_by};

use crate::ring::{Counter, Step, Token};
use base_types::{NoMemory, Sequence};
use step_book::{Machine, Turn};

const PASSES: u64 = 100;

/// Actors that count for themselves and hand a token on.
pub struct Ring;

// The waiting count enters the book.
fn enter(part: &mut Counter, token: &mut Token, book: &mut Sequence<Step>) -> Result<(), NoMemory>
    ensures book { OnOk result (book.new ≡ book.old ++ waiting_by part.old.mark) }
    ensures part { OnOk result (part.new ≡ record part.old { mark = None }) }
    ensures none { OnOk result (part.old.mark ≡ None → token.new ≡ token.old) }
    ensures some { (actor : _) → part.old.mark ≡ Some actor → OnOk result (token.new ≡ noted token.old) }
{
    if let Some(actor) = part.mark {
        book.push(Step::Counted(actor))?;
        token.counts = token.counts.wrapping_add(1);
        part.mark = None;
    }
    Ok(())
}

// The token goes to the next actor.
fn pass(token: &mut Token, me: u32)
    requires { token.old.passes < 100 }
    ensures { token.new ≡ passed me token.old }
{
    token.holder = if token.actors > 0 && me < token.actors - 1 {
        me + 1
    } else {
        0
    };
    token.passes += 1;
}

impl Machine for Ring {
    type Part = Counter;

    type Shared = Token;

    type Step = Step;

    ghost rules = { ring };

    fn work(me: u32, part: &mut Counter) -> Result<(), NoMemory> {
        if part.mark.is_none() {
            part.count = part.count.wrapping_add(1);
            part.mark = Some(me);
        }
        Ok(())
    }

    fn turn(me: u32, part: &mut Counter, token: &mut Token, book: &mut Sequence<Step>) -> Turn {
        let Ok(()) = enter(part, token, book) else {
            return Turn::NoMemory;
        };
        if token.passes >= PASSES {
            return Turn::Finished;
        }
        if token.holder != me {
            return Turn::Nothing;
        }
        let Ok(()) = book.push(Step::Passed(me)) else {
            return Turn::NoMemory;
        };
        pass(token, me);
        Turn::Did
    }

    ghost keeps_sound = { λ parts me p q s h k ok at moves. tt };

    ghost keeps_over = { λ me p q s h over local. over };
}
