// The other texts that the program prints.
ghost use Rattle.std.specs.Prelude.{◌≡◌, IfOk};
ghost use Rattle.xpra_server.specs.Texts.{usage_line, fault_line};

use session_core::Text;
use std::alloc::Global;
use xp_base::NoMemory;

/// The forms of words.
pub fn usage() -> &'static [u8]
    ensures { result.now ≡ usage_line }
{
    b"usage: xpra_server play | replay | gen N | crowd N | serve ADDR | view ADDR\n"
}

/// The fault of a script at this line.
pub fn fault_text(alloc: Global, line: u32) -> Result<Text, NoMemory>
    ensures { IfOk result (λ text. text ≡ fault_line line) }
{
    let mut text = Text::new(alloc);
    text.text(b"script line ")?;
    text.number(u64::from(line))?;
    text.text(b": unbuilt\n")?;
    Ok(text)
}
