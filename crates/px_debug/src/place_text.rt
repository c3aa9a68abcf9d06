//! The answer that shows where a session stands.
ghost use Rattle.std.specs.Prelude.{◌≡◌, ◌<◌};
ghost use Rattle.px_debug.specs.Answers.{place_line};

use crate::text::Text;
use arrayvec::ArrayString;
use itoa::Buffer;
use px_control::Job;

/// Where a job stands, in words.
pub(crate) fn place_line(job: &Job<'_>) -> Text
    ensures { result.bytes ≡ place_line job.now.scene job.now.place.clock }
{
    let mut digits = Buffer::new();
    let mut line = ArrayString::new();
    line.push_str("at ");
    line.push_str(digits.format(job.now()));
    line.push_str(" of ");
    line.push_str(digits.format(job.total_clocks()));
    if job.now() < job.total_clocks() {
        line.push_str(" macro ");
        line.push_str(digits.format(job.macro_now()));
        line.push_str(" micro ");
        line.push_str(digits.format(job.micro_now()));
        line.push_str("\n");
    } else {
        line.push_str(" done\n");
    }
    line
}
