// Streams of main packets.
use std::alloc::Global;
use std::test::Fail;

/// A main packet of each of these contents, of fewer than 256 bytes each.
pub(crate) fn packets(alloc: Global, contents: &[&[u8]]) -> Result<Vec<u8>, Fail> {
    let mut bytes = Vec::new(alloc);
    for content in contents {
        push_packet(&mut bytes, content)?;
    }
    Ok(bytes)
}

fn push_packet(bytes: &mut Vec<u8>, content: &[u8]) -> Result<(), Fail> {
    let Ok(size) = u8::try_from(content.len()) else {
        return Err("a long packet".into());
    };
    bytes.extend_from_slice(b"\x50\x00\x00\x00\x00\x00\x00")?;
    bytes.push(size)?;
    bytes.extend_from_slice(content)?;
    Ok(())
}
