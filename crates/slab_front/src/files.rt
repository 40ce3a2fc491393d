// The files of a run, read one after another.
ghost use Rattle.std.specs.Prelude.{◌≡◌, ◌≤◌, length, IfOk};
ghost use Rattle.slab_desk.specs.Desk.{WhereTold, HasFile, HasLongFile};
ghost use Rattle.slab_desk.specs.Names.{with_opened};
ghost use Rattle.mill_model.specs.Mill.{AreBarsAmong};
ghost use Rattle.mill_read.specs.OrderFile.{order_file};
ghost use Rattle.mill_read.specs.YardFile.{yard_file};
ghost use Rattle.mill_read.specs.PlanFile.{plan_file};
ghost use Rattle.run_words.specs.Files.{most_bytes, HasValue, HasMill};
ghost use Rattle.run_words.specs.Opens.{HasOpened};
ghost use Rattle.slab_front.specs.Owed.{Nothing, OwesOfFile, OwesOfMill};
ghost use Rattle.slab_front.specs.Endings.{HasOnlyRead, is_fault, IsStop, IsTooLong, IsRefusal};
ghost use Rattle.slab_front.specs.Jobs.{mill_named};
ghost use Rattle.slab_front.specs.Opens.{IsMillOpened};

use crate::ending::Stop;
use crate::names::MillNames;
use crate::texts::{Source, fault_text, long_text};
use mill_model::{Mill, Plan, Yard};
use mill_read::{TextError, read_orders, read_plan, read_yard};
use slab_desk::{Desk, ReadFail, read_all};
use std::alloc::Global;

const MOST_BYTES: usize = 1048576;

/// The mill of these names.
pub fn read_mill<D: Desk>(alloc: Global, desk: &mut D, names: MillNames<'_>) -> Result<Mill, Stop>
    ensures mill { IfOk result (λ mill. WhereTold (D.told desk.old)
        (λ t. HasMill (mill_named names.entry) mill t.files)) }
    ensures reads { HasOnlyRead (IsStop (λ files. OwesOfMill Nothing files
        (mill_named names.entry)))
        (D.told desk.old) (D.told desk.new) (D.faults desk.old) (D.faults desk.new) result }
    ensures stopped { D.stopped desk.new ≡ is_fault result }
    ensures named { HasOpened (IsMillOpened (mill_named names.entry) (D.told desk.old) result)
        (D.named desk.old) (D.named desk.new) }
{
    let mut mill = bare_mill(alloc, desk, names.orders)?;
    if let Some(name) = names.yard {
        let yard = yard_in(alloc, desk, &mill, name)?;
        mill.put_yard(yard);
    }
    mill.set_colour_limit(names.colours);
    Ok(mill)
}

// The mill of an order file.
fn bare_mill<D: Desk>(alloc: Global, desk: &mut D, name: &str) -> Result<Mill, Stop>
    ensures mill { IfOk result (λ mill. WhereTold (D.told desk.old)
        (λ t. HasValue order_file name.now mill t.files)) }
    ensures reads { HasOnlyRead (IsStop (λ files. OwesOfFile Source.Orders order_file Nothing files
        name.now))
        (D.told desk.old) (D.told desk.new) (D.faults desk.old) (D.faults desk.new) result }
    ensures stopped { D.stopped desk.new ≡ is_fault result }
    ensures named { D.named desk.new ≡ with_opened name.now (D.named desk.old) }
{
    let bytes = bytes_in(alloc, desk, Source::Orders, name)?;
    match read_orders(alloc, &bytes) {
        Ok(mill) => Ok(mill),
        Err(error) => Err(refusal(alloc, Source::Orders, error)),
    }
}

// The yard of a yard file, for a mill.
fn yard_in<D: Desk>(alloc: Global, desk: &mut D, mill: &Mill, name: &str) -> Result<Yard, Stop>
    ensures yard { IfOk result (λ yard. WhereTold (D.told desk.old)
        (λ t. HasValue (yard_file (length mill.now.orders)) name.now yard t.files)) }
    ensures bars { IfOk result (λ yard. AreBarsAmong (length mill.now.orders) yard.bars) }
    ensures reads { HasOnlyRead (IsStop (λ files. OwesOfFile Source.Yard
        (yard_file (length mill.now.orders)) Nothing files name.now))
        (D.told desk.old) (D.told desk.new) (D.faults desk.old) (D.faults desk.new) result }
    ensures stopped { D.stopped desk.new ≡ is_fault result }
    ensures named { D.named desk.new ≡ with_opened name.now (D.named desk.old) }
{
    let bytes = bytes_in(alloc, desk, Source::Yard, name)?;
    match read_yard(alloc, mill, &bytes) {
        Ok(yard) => Ok(yard),
        Err(error) => Err(refusal(alloc, Source::Yard, error)),
    }
}

/// The plan of a plan file, for a mill.
pub fn plan_in<D: Desk>(alloc: Global, desk: &mut D, mill: &Mill, name: &str) -> Result<Plan, Stop>
    ensures plan { IfOk result (λ plan. WhereTold (D.told desk.old)
        (λ t. HasValue (plan_file (length mill.now.orders)) name.now plan t.files)) }
    ensures places { IfOk result (λ plan. length plan.place ≡ length mill.now.orders) }
    ensures reads { HasOnlyRead (IsStop (λ files. OwesOfFile Source.Plan
        (plan_file (length mill.now.orders)) Nothing files name.now))
        (D.told desk.old) (D.told desk.new) (D.faults desk.old) (D.faults desk.new) result }
    ensures stopped { D.stopped desk.new ≡ is_fault result }
    ensures named { D.named desk.new ≡ with_opened name.now (D.named desk.old) }
{
    let bytes = bytes_in(alloc, desk, Source::Plan, name)?;
    match read_plan(alloc, mill, &bytes) {
        Ok(plan) => Ok(plan),
        Err(error) => Err(refusal(alloc, Source::Plan, error)),
    }
}

// All bytes of a file that isn't too long.
fn bytes_in<D: Desk>(
    alloc: Global,
    desk: &mut D,
    source: Source,
    name: &str,
) -> Result<Vec<u8>, Stop>
    ensures bytes { IfOk result (λ v. WhereTold (D.told desk.old) (HasFile name.now v.items)) }
    ensures fits { IfOk result (λ v. length v.items ≤ most_bytes) }
    ensures reads { HasOnlyRead (IsTooLong source name.now)
        (D.told desk.old) (D.told desk.new) (D.faults desk.old) (D.faults desk.new) result }
    ensures stopped { D.stopped desk.new ≡ is_fault result }
    ensures named { D.named desk.new ≡ with_opened name.now (D.named desk.old) }
{
    match read_all(alloc, desk, name, MOST_BYTES) {
        Ok(bytes) => Ok(bytes),
        Err(ReadFail::Long) => Err(Stop::Refused(long_text(alloc, source)?)),
        Err(ReadFail::Fault) => Err(Stop::Fault),
        Err(ReadFail::Memory) => Err(Stop::Memory),
    }
}

// Why a file has no value.
fn refusal(alloc: Global, source: Source, error: TextError) -> Stop
    ensures { IsRefusal source error result }
{
    match error {
        TextError::Text(fault) => match fault_text(alloc, source, fault) {
            Ok(text) => Stop::Refused(text),
            Err(_) => Stop::Memory,
        },
        TextError::Memory => Stop::Memory,
    }
}
