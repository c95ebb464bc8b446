// The lines of a source, put to the end of a text.
ghost use Rattle.std.specs.Prelude.{◌≡◌, ◌+◌, ◌-◌, ◌<◌, ◌++◌, OnOk, codes, decimal};
ghost use Rattle.rw_gen.specs.Workload.{named, data_line, signature_line, device_line};

use itoa::Buffer;
use rw_base::OutOfMemory;

/// The data declaration of the states, of which there is at least one.
pub(crate) fn push_states(text: &mut Vec<u8>, size: u32) -> Result<(), OutOfMemory>
    requires { 0 < size }
    ensures { OnOk result (text.new.items ≡ text.old.items ++ data_line size) }
{
    text.extend_from_slice(b"data S = ")?;
    push_name(text, b"S", 0)?;
    for state in 1..size {
        text.extend_from_slice(b" | ")?;
        push_name(text, b"S", state)?;
    }
    text.push(b'\n')?;
    Ok(())
}

/// The signature of a device.
pub(crate) fn push_signature(text: &mut Vec<u8>, device: u32) -> Result<(), OutOfMemory>
    ensures { OnOk result (text.new.items ≡ text.old.items ++ signature_line device) }
{
    push_name(text, b"d", device)?;
    text.extend_from_slice(b" :: ReT Bool S I ()\n")?;
    Ok(())
}

/// The clause of a device: it shows its own state, and the input chooses the next device.
pub(crate) fn push_device(
    text: &mut Vec<u8>,
    device: u32,
    on_false: u32,
    on_true: u32,
) -> Result<(), OutOfMemory>
    ensures { OnOk result (text.new.items ≡ text.old.items ++ device_line device on_false on_true) }
{
    push_name(text, b"d", device)?;
    push_name(text, b" = signal S", device)?;
    push_name(text, b" >>= \\x -> case x of { False -> d", on_false)?;
    push_name(text, b" ; True -> d", on_true)?;
    text.extend_from_slice(b" }\n")?;
    Ok(())
}

/// Some bytes and behind them a number in decimal.
fn push_name(text: &mut Vec<u8>, front: &[u8], number: u32) -> Result<(), OutOfMemory>
    ensures { OnOk result (text.new.items ≡ text.old.items ++ named front.now number) }
{
    let mut buffer = Buffer::new();
    text.extend_from_slice(front)?;
    text.extend_from_slice(buffer.format(number).as_bytes())?;
    Ok(())
}
