ghost use Rattle.std.specs.Prelude.{◌≡◌};
ghost use Rattle.node_threads.specs.Ends.{earlier};

use crate::end::End;

/// Of two ends the one to be told, `first` being of the actors with the lower numbers.
pub(crate) fn first_of<N: Drop>(first: End<N>, second: End<N>) -> End<N>
    ensures { result ≡ earlier first second }
{
    match first {
        End::Failed(why) => End::Failed(why),
        End::Stopped => second,
        End::Finished => match second {
            End::Failed(why) => End::Failed(why),
            _ => End::Finished,
        },
    }
}
