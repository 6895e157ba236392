ghost use Rattle.std.specs.Prelude.{◌≡◌, ℕ, [], ◌∷◌, ◌++◌, ◌<◌, length, nat_eq, if◌then◌else◌, slice_get, unwrap_or, OnOk, OnErr};
ghost use Rattle.std.specs.HashMap.{get};
ghost use Rattle.std.specs.Option.{option_copied};
ghost use Rattle.script_text.specs.Turns.{lines_of, turn_of};

use crate::item::Item;
use base_types::{NoMemory, Sequence};
use std::alloc::Global;
use std::collections::HashMap;
use std::marker::Model;

/// For each session with a statement, the lines of its statements.
type Turns = HashMap<u16, Sequence<u32>>;

/// The lines of a wave with what they ask, in order. Contracts see it as their list.
#[derive(Debug, Drop)]
pub struct Wave {
    lines: Vec<(u32, Item)>,
    turns: Turns,
}

impl Model for Wave {
    ghost use Rattle.std.specs.Prelude.{◌≡◌, ℕ, List, [], nat_eq, unwrap_or};
    ghost use Rattle.std.specs.HashMap.{get};
    ghost use Rattle.script_text.specs.declared.item.Item.{Item};
    ghost use Rattle.script_text.specs.Turns.{lines_of};

    ghost Value = { List (ℕ × Item) };

    ghost view = { λ w. w.lines.items };

    ghost invariant = { λ w. (session : ℕ) → unwrap_or (get nat_eq w.turns session) [] ≡ lines_of session w.lines.items };
}

/// Adds a line of a session.
fn push_turn(alloc: Global, turns: &mut Turns, session: u16, line: u32) -> Result<(), NoMemory>
    ensures { OnOk result ((other : ℕ) → unwrap_or (get nat_eq turns.new other) [] ≡
        unwrap_or (get nat_eq turns.old other) [] ++ (if nat_eq session other then line ∷ [] else [])) }
{
    match turns.get_mut(&session) {
        Some(lines) => {
            lines.push(line)?;
        }
        None => {
            let mut lines = Sequence::new(alloc);
            lines.push(line)?;
            turns.insert(session, lines)?;
        }
    }
    Ok(())
}

/// Adds a line's turn, where it is one.
fn note_turn(alloc: Global, turns: &mut Turns, line: u32, item: &Item) -> Result<(), NoMemory>
    ensures { OnOk result ((session : ℕ) → unwrap_or (get nat_eq turns.new session) [] ≡
        unwrap_or (get nat_eq turns.old session) [] ++ turn_of session line item.now) }
{
    if let Item::Stmt { session, .. } = item {
        push_turn(alloc, turns, *session, line)?;
    }
    Ok(())
}

impl Wave {
    /// The wave without a line. It takes no memory.
    pub fn new(alloc: Global) -> Wave
        ensures { result ≡ [] }
    {
        Wave {
            lines: Vec::new(alloc),
            turns: HashMap::new(alloc),
        }
    }

    /// The lines with what they ask.
    pub fn as_slice(&self) -> &[(u32, Item)]
        ensures { result.now ≡ self.now }
    {
        self.lines.as_slice()
    }

    /// How many lines it has.
    pub fn len(&self) -> usize
        ensures { result ≡ length self.now }
    {
        self.lines.len()
    }

    /// The lines of a session's statements, in order. No walk is taken for them.
    pub fn lines_of(&self, session: u16) -> &[u32]
        ensures { result.now ≡ lines_of session self.now }
    {
        match self.turns.get(&session) {
            Some(lines) => lines.as_slice(),
            None => &[],
        }
    }

    /// Adds a line. An `Err` leaves no line.
    pub fn push(&mut self, alloc: Global, line: u32, item: Item) -> Result<(), NoMemory>
        ensures ok { OnOk result (self.new ≡ self.old ++ (line, item) ∷ []) }
        ensures err { OnErr result (self.new ≡ []) }
    {
        let pushed = push_line(alloc, &mut self.lines, &mut self.turns, line, item);
        if pushed.is_err() {
            self.lines.clear();
            self.turns.clear();
        }
        pushed
    }
}

/// Adds a line and its turn. An `Err` may leave one without the other.
fn push_line(
    alloc: Global,
    lines: &mut Vec<(u32, Item)>,
    turns: &mut Turns,
    line: u32,
    item: Item,
) -> Result<(), NoMemory>
    ensures lines { OnOk result (lines.new.items ≡ lines.old.items ++ (line, item) ∷ []) }
    ensures turns { OnOk result ((session : ℕ) → unwrap_or (get nat_eq turns.new session) [] ≡
        unwrap_or (get nat_eq turns.old session) [] ++ turn_of session line item) }
{
    note_turn(alloc, turns, line, &item)?;
    lines.push((line, item))?;
    Ok(())
}
