// Writing.
ghost use Rattle.std.specs.Prelude.{◌≡◌, ◌++◌, OnOk, IfOk, map};
ghost use Rattle.std.specs.List.{concat};
ghost use Rattle.bencode_values.specs.Grammar.{spelled, spelled_pair, spelled_key, spelled_int, spelled_bytes, IsWithinLimits};

use crate::value::{Key, Pair, Value};
use std::alloc::Global;
use xp_base::NoMemory;

/// The one spelling of a value within the limits.
pub fn write_value(alloc: Global, value: &Value) -> Result<Vec<u8>, NoMemory>
    requires { IsWithinLimits value.now }
    ensures { IfOk result (λ bytes. bytes.items ≡ spelled value.now) }
{
    let mut out = Vec::new(alloc);
    write(alloc, value, &mut out)?;
    Ok(out)
}

/// Appends the spelling of a value.
#[cycle(write)]
fn write(alloc: Global, value: &Value, out: &mut Vec<u8>) -> Result<(), NoMemory>
    ensures { OnOk result (out.new.items ≡ out.old.items ++ spelled value.now) }
{
    match value {
        Value::Int(number) => write_int(alloc, *number, out),
        Value::Bytes(text) => write_bytes(alloc, text.as_slice(), out),
        Value::List(items) => {
            out.push(b'l')?;
            write_values(alloc, items.as_slice(), out)?;
            out.push(b'e')?;
            Ok(())
        }
        Value::Dict(pairs) => {
            out.push(b'd')?;
            write_pairs(alloc, pairs.as_slice(), out)?;
            out.push(b'e')?;
            Ok(())
        }
    }
}

#[cycle(write)]
fn write_values(alloc: Global, values: &[Value], out: &mut Vec<u8>) -> Result<(), NoMemory>
    ensures { OnOk result (out.new.items ≡ out.old.items ++ concat (map spelled values.now)) }
{
    for value in values {
        write(alloc, value, out)?;
    }
    Ok(())
}

#[cycle(write)]
fn write_pairs(alloc: Global, pairs: &[Pair], out: &mut Vec<u8>) -> Result<(), NoMemory>
    ensures { OnOk result (out.new.items ≡ out.old.items ++ concat (map spelled_pair pairs.now)) }
{
    for pair in pairs {
        write_key(alloc, &pair.key, out)?;
        write(alloc, &pair.value, out)?;
    }
    Ok(())
}

fn write_key(alloc: Global, key: &Key, out: &mut Vec<u8>) -> Result<(), NoMemory>
    ensures { OnOk result (out.new.items ≡ out.old.items ++ spelled_key key.now) }
{
    match key {
        Key::Int(number) => write_int(alloc, *number, out),
        Key::Bytes(text) => write_bytes(alloc, text.as_slice(), out),
    }
}

fn write_int(alloc: Global, number: i64, out: &mut Vec<u8>) -> Result<(), NoMemory>
    ensures { OnOk result (out.new.items ≡ out.old.items ++ spelled_int number) }
{
    let digits = format!(in alloc; "{number}")?;
    out.push(b'i')?;
    out.extend_from_slice(digits.as_bytes())?;
    out.push(b'e')?;
    Ok(())
}

fn write_bytes(alloc: Global, text: &[u8], out: &mut Vec<u8>) -> Result<(), NoMemory>
    ensures { OnOk result (out.new.items ≡ out.old.items ++ spelled_bytes text.now) }
{
    let size = text.len();
    let digits = format!(in alloc; "{size}")?;
    out.extend_from_slice(digits.as_bytes())?;
    out.push(b':')?;
    out.extend_from_slice(text)?;
    Ok(())
}
