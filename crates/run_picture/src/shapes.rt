//! What a picture is made of.

ghost use Rattle.std.specs.Prelude.{◌≡◌};
ghost use Rattle.run_picture.specs.Shapes.{look_text};

/// How a shape looks, by what it means.
#[derive(Clone, Copy, Debug, PartialEq, Eq)]
pub enum Look {
    /// The ground of a lane while its instance is up, while it is paused, and while it is down.
    Up,
    Paused,
    Down,
    /// A statement that reads, changes, or ends a transaction, and one that was refused.
    Reading,
    Changing,
    Ending,
    Refused,
    /// A block that moves, and a copy of one.
    Block,
    Copy,
    /// The ground of all.
    Paper,
    /// The line between two waves.
    Between,
    /// The words of a title, a lane's head, a step's number, and a step.
    Title,
    Head,
    Number,
    Words,
    /// The words of an answer, of a commit on disk, of a refusal, of a block, of redo and recovery, and of a crash.
    AnswerWords,
    CommitWords,
    RefusedWords,
    BlockWords,
    CopyWords,
    RedoWords,
    RecoveryWords,
    CrashWords,
}

impl Look {
    /// The attributes by which a shape looks so.
    #[tactic(auto, unfolding(crate::specs::Shapes::look_text))]
    pub(crate) fn text(self) -> &'static str
        ensures { result.now ≡ look_text self }
    {
        match self {
            Look::Up => "fill=\"#eef2f6\"",
            Look::Paused => "fill=\"#fbe3b3\"",
            Look::Down => "fill=\"#c4c4ca\"",
            Look::Reading => "fill=\"#7fb2e5\"",
            Look::Changing => "fill=\"#4a7fb5\"",
            Look::Ending => "fill=\"#57a773\"",
            Look::Refused => "fill=\"#d1495b\"",
            Look::Block => "stroke=\"#8b4bb0\" fill=\"#8b4bb0\" stroke-width=\"2\"",
            Look::Copy => "stroke=\"#b48bc9\" fill=\"#b48bc9\" stroke-width=\"2\"",
            Look::Paper => "fill=\"#ffffff\"",
            Look::Between => "stroke=\"#888888\" fill=\"#888888\" stroke-width=\"1\"",
            Look::Title => "fill=\"#222222\" font-size=\"15\"",
            Look::Head => "fill=\"#222222\" font-weight=\"bold\" font-size=\"13\"",
            Look::Number => "fill=\"#999999\"",
            Look::Words => "fill=\"#444444\"",
            Look::AnswerWords => "fill=\"#222222\" font-weight=\"bold\"",
            Look::CommitWords => "fill=\"#2c7a47\" font-weight=\"bold\"",
            Look::RefusedWords => "fill=\"#b02a3b\" font-weight=\"bold\"",
            Look::BlockWords => "fill=\"#7a3d9c\"",
            Look::CopyWords => "fill=\"#9a6fb1\"",
            Look::RedoWords => "fill=\"#8a6d1d\"",
            Look::RecoveryWords => "fill=\"#b36b00\"",
            Look::CrashWords => "fill=\"#b02a3b\" font-weight=\"bold\"",
        }
    }
}

/// A shape, at whole points from the left and from the top.
#[derive(Debug, Drop)]
pub enum Shape {
    Box {
        x: u32,
        y: u32,
        width: u32,
        height: u32,
        look: Look,
    },
    Line {
        x: u32,
        y: u32,
        to_x: u32,
        to_y: u32,
        look: Look,
    },
    /// The head of an arrow, with its tip at this point.
    Tip {
        x: u32,
        y: u32,
        to_left: bool,
        look: Look,
    },
    Label {
        x: u32,
        y: u32,
        text: String,
        look: Look,
    },
}

/// A picture: its shapes, each above those before it.
#[derive(Debug, Drop)]
pub struct Picture {
    pub width: u32,
    pub height: u32,
    pub shapes: Vec<Shape>,
}
