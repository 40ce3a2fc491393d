// Questions, and the outline of an unfinished tree.
ghost use Rattle.std.specs.Prelude.{map, ◌∷◌, [], ◌++◌, ◌≤◌, length};
ghost use Rattle.cert_view.specs.Text.{numbers_text};
ghost use Rattle.cert_text.specs.Lines.{number, ask_line, outline_line};
ghost use Rattle.cert_text.specs.Texts.{lines_text};
ghost use Rattle.line_out.specs.Puts.{Puts};

use crate::numbers::put_index;
use line_out::{End, LineOut};
use mill_model::Ask;

// The line of a question.
pub fn put_ask<D, E: End<D>>(out: &mut LineOut<E>, desk: &mut D, ask: Ask)
    ensures { Puts E.sends (lines_text (ask_line ask ∷ [])) (out.old, E.seen desk.old) (out.new, E.seen desk.new) }
{
    match ask {
        Ask::Pair(first, second) => put_two(out, desk, b"pair", first, second),
        Ask::Put(order, slab) => put_two(out, desk, b"put", order, slab),
    }
}

// A line of a word and two numbers from 1.
fn put_two<D, E: End<D>>(out: &mut LineOut<E>, desk: &mut D, word: &[u8], first: u16, second: u16)
    requires { length word.now ≤ 64 }
    ensures { Puts E.sends (word.now ++ numbers_text (number first ∷ number second ∷ []) ++ 10 ∷ []) (out.old, E.seen desk.old) (out.new, E.seen desk.new) }
{
    out.put(desk, word);
    put_index(out, desk, first);
    put_index(out, desk, second);
    out.end_line(desk);
}

// The lines of an unfinished tree.
pub fn put_outline<D, E: End<D>>(out: &mut LineOut<E>, desk: &mut D, outline: &[Option<Ask>])
    ensures { Puts E.sends (lines_text (map outline_line outline.now)) (out.old, E.seen desk.old) (out.new, E.seen desk.new) }
{
    for step in outline {
        put_step(out, desk, *step);
    }
}

// A question of an unfinished tree, or an end.
fn put_step<D, E: End<D>>(out: &mut LineOut<E>, desk: &mut D, step: Option<Ask>)
    ensures { Puts E.sends (lines_text (outline_line step ∷ [])) (out.old, E.seen desk.old) (out.new, E.seen desk.new) }
{
    match step {
        None => out.put(desk, b"open\n"),
        Some(ask) => put_ask(out, desk, ask),
    }
}
