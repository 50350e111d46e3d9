//! The feed of modules.
ghost use Rattle.std.specs.Prelude.{◌≡◌, ◌<◌, ◌^◌, length};
ghost use Rattle.line_fields.specs.Feed.{fed};
ghost use Rattle.file_plans.specs.Plans.{Follows, Meets, unless};
ghost use Rattle.meaning_tool.specs.Subjects.{unfed, feed_at};

use cap_words::Items;
use command_words::FileName;
use file_plans::{Refusal, Stop, read};
use line_fields::{FeedFault, read_feed};
use outside_io::Files;
use source_events::Item;
use std::alloc::Global;

// What the text of a feed has.
fn items(alloc: Global, base: u32, text: &[u8]) -> Result<Items<Item>, Stop>
    requires { length text.now < 2 ^ 32 }
    ensures { Meets (unless unfed (fed base text.now)) result }
{
    match read_feed(alloc, base, text) {
        Ok(items) => Ok(Items::of(items)),
        Err(FeedFault::Line(line)) => Err(Stop::Refused(Refusal::Feed(line))),
        Err(FeedFault::NoMemory) => Err(Stop::NoMemory),
    }
}

/// What the feed of a file has, where stacks begin at `base`. `index` is what a refusal tells of the file.
#[tactic(auto, using(file_plans::proofs::Offers::follows_end), unfolding(crate::specs::Subjects::feed_at))]
pub(crate) fn feed<F: Files>(
    alloc: Global,
    files: &mut F,
    name: &FileName<'_>,
    index: u32,
    base: u32,
) -> Result<Items<Item>, Stop>
    ensures { Follows (feed_at name.now index base) (F.seen files.old) result (F.seen files.new) }
{
    let text = read(alloc, files, name, index)?;
    items(alloc, base, text.as_slice())
}
