// How the report and the summary end.
ghost use Rattle.mill_report.specs.Reports.{nodes_text, word_text};
ghost use Rattle.line_out.specs.Puts.{Puts};

use crate::Word;
use line_out::{End, LineOut};

// The nodes opened, and the bare ones among them.
pub fn put_nodes<D, E: End<D>>(out: &mut LineOut<E>, desk: &mut D, opened: u64, bare: u64)
    ensures { Puts E.sends (nodes_text opened bare) (out.old, E.seen desk.old) (out.new, E.seen desk.new) }
{
    out.put(desk, b"nodes");
    out.number(desk, opened);
    out.put(desk, b" bare");
    out.number(desk, bare);
    out.end_line(desk);
}

// The last word.
pub fn put_word<D, E: End<D>>(out: &mut LineOut<E>, desk: &mut D, word: Word)
    ensures { Puts E.sends (word_text word) (out.old, E.seen desk.old) (out.new, E.seen desk.new) }
{
    match word {
        Word::Complete => out.put(desk, b"complete\n"),
        Word::Budget => out.put(desk, b"budget\n"),
        Word::NoPlan => out.put(desk, b"noplan\n"),
    }
}
