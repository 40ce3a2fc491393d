//! One line of a script.
ghost use Rattle.std.specs.Prelude.{◌≤◌, ◌∷◌, IfOk};
ghost use Rattle.mill_model.specs.Mill.{most_orders};
ghost use Rattle.session_script.specs.Forms.{line_of, line_of_words};
ghost use Rattle.session_script.specs.Gives.{GivesLine};
ghost use Rattle.session_script.specs.Limits.{IsFit};

use crate::error::LineError;
use crate::form::{Form, form_with};
use crate::line::{Line, Why};
use crate::numbers::numbers;
use crate::parts::Parts;
use std::alloc::Global;

/// What a line asks for, without its line feed: the first line of a script or a later one, where so
/// many orders stand.
///
/// `Bad` has the first rule that it breaks: `Spelling`, then `Expect`, then those of its numbers
/// (`Range`, and then `Full`). `Memory` may come for any line.
#[tactic(auto, unfolding(crate::specs::Forms::line_of))]
pub fn read_line(alloc: Global, text: &[u8], first: bool, orders: u16) -> Result<Line, LineError>
    requires { orders ≤ most_orders }
    ensures given { GivesLine result (line_of first orders text.now) }
    ensures fit { IfOk result (IsFit orders) }
{
    let mut words = Parts::new(b' ', text);
    match words.next() {
        Some(keyword) => after_keyword(alloc, keyword, words, first, orders),
        None => Err(LineError::Bad(Why::Spelling)),
    }
}

// What a line asks for that begins with this word and goes on with those.
fn after_keyword(
    alloc: Global,
    keyword: &[u8],
    rest: Parts<'_>,
    first: bool,
    orders: u16,
) -> Result<Line, LineError>
    requires { orders ≤ most_orders }
    ensures given { GivesLine result (line_of_words first orders (keyword.now ∷ rest.entry.parts)) }
    ensures fit { IfOk result (IsFit orders) }
{
    let Some(numbers) = numbers(alloc, rest)? else {
        return Err(LineError::Bad(Why::Spelling));
    };
    let Some(form) = form_with(keyword, numbers) else {
        return Err(LineError::Bad(Why::Spelling));
    };
    if !form.stands_well(first) {
        return Err(LineError::Bad(Why::Expect));
    }
    form.ruled(alloc, orders)
}
