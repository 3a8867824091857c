ghost use Rattle.std.specs.Prelude.{◌≡◌, false, MatchResult};
ghost use Rattle.seg_io.specs.Desk.{IsOpen, appended, FailsAfterWriting};
ghost use Rattle.seg_io.specs.Piecing.{Puts, FailsToPut};
ghost use Rattle.refusals.specs.Line.{digits_of, line_bytes};
ghost use Rattle.refusals.specs.Refusal.{line_of};

use crate::line::Line;
use crate::refusal::Refusal;
use itoa::Buffer;
use seg_io::{Desk, Failed, Piecer, Port};

/// Writes the line that tells of a refusal at the end of the port Trouble, and takes no memory for it.
/// Where a write fails, a prefix of the line was written.
pub fn tell<D: Desk>(desk: &mut D, refusal: &Refusal) -> Result<(), Failed>
    ensures { MatchResult result
        (λ _. D.state desk.new ≡ appended Port.Trouble (line_of refusal.now) (D.state desk.old))
        (λ _. FailsAfterWriting Port.Trouble (line_of refusal.now) (D.state desk.old) (D.state desk.new)) }
{
    let line = Line::of(refusal);
    let mut piecer = Piecer::new(Port::Trouble);
    put_line(&mut piecer, desk, &line)?;
    piecer.finish(desk)
}

/// Puts a line and its line feed.
fn put_line<D: Desk>(piecer: &mut Piecer, desk: &mut D, line: &Line) -> Result<(), Failed>
    requires open { IsOpen piecer.old.port (D.state desk.old) }
    requires sound { piecer.old.failed ≡ false }
    ensures { MatchResult result
        (λ _. Puts (line_bytes line.now) piecer.old piecer.new (D.state desk.old) (D.state desk.new))
        (λ _. FailsToPut (line_bytes line.now) piecer.old piecer.new (D.state desk.old) (D.state desk.new)) }
{
    piecer.put(desk, line.before.as_bytes())?;
    put_number(piecer, desk, line.number)?;
    piecer.put(desk, line.after.as_bytes())?;
    piecer.put(desk, b"\n")
}

/// Puts the decimal digits of a number, if there is one.
fn put_number<D: Desk>(piecer: &mut Piecer, desk: &mut D, number: Option<u64>) -> Result<(), Failed>
    requires open { IsOpen piecer.old.port (D.state desk.old) }
    requires sound { piecer.old.failed ≡ false }
    ensures { MatchResult result
        (λ _. Puts (digits_of number) piecer.old piecer.new (D.state desk.old) (D.state desk.new))
        (λ _. FailsToPut (digits_of number) piecer.old piecer.new (D.state desk.old) (D.state desk.new)) }
{
    match number {
        Some(number) => piecer.put(desk, Buffer::new().format(number).as_bytes()),
        None => Ok(()),
    }
}
