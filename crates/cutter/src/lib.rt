// Lines cut out of an input that comes piece by piece. Of a line the first characters are kept in lent memory, as many as it has room for, however long
// the line is and however many pieces it comes in.
#![tactic(auto)]

ghost use Rattle.std.specs.Prelude.{◌≤◌, length};
ghost use Rattle.cutter.specs.Cuts.{Keeping, Cuts};

// What a piece gives of a line: all of it, where the line goes on, or as many characters as are used, where it ends there. Either way so many characters of
// the line are kept.
#[derive(Clone, Copy)]
pub enum Cut {
    GoesOn { kept: usize },
    Ends { used: usize, kept: usize },
}

// Characters of one line more: they are kept while there is room.
fn keep(characters: &[u8], line: &mut [u8], kept: usize) -> usize
    requires { kept ≤ length line.old }
    ensures { Keeping characters.now line.old kept line.new result }
{
    let count = characters.len().min(line.len() - kept);
    let filled = kept + count;
    line[kept..filled].copy_from_slice(&characters[..count]);
    filled
}

// Takes the characters of a piece up to and with its first line feed, or all of them where it has none. The line is searched for first and then
// copied: each goes over the characters with one test a turn.
pub fn next(piece: &[u8], line: &mut [u8], kept: usize) -> Cut
    requires { kept ≤ length line.old }
    ensures { Cuts piece.now line.old kept result line.new }
{
    match piece.iter().position(|c| *c == b'\n') {
        Some(end) => Cut::Ends {
            used: end + 1,
            kept: keep(&piece[..end], line, kept),
        },
        None => Cut::GoesOn {
            kept: keep(piece, line, kept),
        },
    }
}
