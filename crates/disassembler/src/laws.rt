//! What holds of the texts of components. This function does nothing; its contract is the law.
ghost use Rattle.std.specs.Prelude.{◌≡◌, ◌<◌, ◌^◌, length, Ok};
ghost use Rattle.component_file.specs.declared.component.ComponentFields.{ComponentFields};
ghost use Rattle.component_file.specs.Limits.{IsComponent};
ghost use Rattle.assembler.specs.Assembled.{assembled};
ghost use Rattle.disassembler.specs.Disassembled.{disassembled};

/// A component's disassembled text assembles to it, and is short enough for that.
///
/// It has fewer than 2^32 bytes.
pub fn text_is_read()
    ensures again { (c : ComponentFields) → IsComponent c → assembled (disassembled c) ≡ Ok c }
    ensures short { (c : ComponentFields) → IsComponent c → length (disassembled c) < 2 ^ 32 }
{}
