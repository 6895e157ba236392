ghost use Rattle.std.specs.Prelude.{◌≡◌, ◌≢◌, ◌++◌, OnOk, List};
ghost use Rattle.step_book.specs.Actors.{Rules, Follows, MayWork, Ready, Turns, KeepsSound, KeepsOver};
ghost use Rattle.step_book.specs.declared.answer.Turn.TheVariants.{NoMemory as Exhausted};

use crate::answer::Turn;
use base_types::{NoMemory, Sequence};

/// A machine of actors that share one value.
pub trait Machine {
    /// What an actor has of its own.
    type Part: Send + Drop;
    /// What all actors share.
    type Shared: Send + Drop;
    /// A step of one actor.
    type Step: Send + Drop;

    /// Which steps lead where, what always holds, and when the run has ended.
    ghost rules: { Rules Self.Part Self.Shared Self.Step };

    /// Makes local steps of an actor, which wait in its part. An `Err` says nothing of the part.
    fn work(me: u32, part: &mut Self::Part) -> Result<(), NoMemory>
        requires { MayWork rules me part.old }
        ensures { OnOk result (Follows rules me part.old part.new) };

    /// One turn of an actor: steps that wait in its part enter, and then it makes at most one shared
    /// step. The steps go to the end of `book`. `NoMemory` says nothing of what is left.
    fn turn(
        me: u32,
        part: &mut Self::Part,
        shared: &mut Self::Shared,
        book: &mut Sequence<Self::Step>,
    ) -> Turn
        requires { Ready rules me part.old shared.old }
        ensures { result ≢ Exhausted → (steps : List Self.Step) × (book.new ≡ book.old ++ steps) × Turns rules result me part.old shared.old steps part.new shared.new };

    /// Each step keeps what is sound.
    ghost keeps_sound: { KeepsSound rules };

    /// Each local step that enters keeps the end.
    ghost keeps_over: { KeepsOver rules };
}
