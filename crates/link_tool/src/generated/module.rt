//! The trusted module of a load, as a text.
ghost use Rattle.std.specs.Prelude.{◌≡◌, ◌<◌, length};
ghost use Rattle.link_tool.specs.Generated.{module_text};

use super::load::Workload;
use arrayvec::ArrayString;
use itoa::Buffer;

/// The text of a module: the longest has 243 bytes.
pub type ModuleText = ArrayString<256>;

const HEAD: &str = "\
module gen code 4096 data 8192 closure 10 returns 11 3 stack 65536;
import adv.go/1;
global seen = 0;
export proc main() { halt down(";

const TAIL: &str = ") + seen; }
proc down(n) { if n < 1 { return 0; } seen = seen + go(n); return down(n - 1) + 1; }
";

/// The text of a load's module, a source of the language of `docs/LANGUAGE.md`.
pub fn module_text(load: Workload) -> ModuleText
    ensures { result.bytes ≡ module_text load }
{
    let mut text = ModuleText::new();
    let mut digits = Buffer::new();
    text.push_str(HEAD);
    text.push_str(digits.format(load.rounds));
    text.push_str(TAIL);
    text
}
