//! Heads of IPP requests, read and written.
use ipp_codec::*;
use std::alloc::AllocError;
use std::test::*;

const OPEN: &[u8] =
    b"\x01\x47\x00\x12attributes-charset\x00\x05utf-8\x48\x00\x1Battributes-natural-language\x00\x02en";

const URI: &[u8] = b"\x45\x00\x0Bprinter-uri\x00\x20ipp://localhost:631/printers/lab";

const PRINT_JOB: &[u8] = b"\x01\x01\x00\x02\x00\x00\x00\x01";
/// The beginning of a member's value that is a collection.
const DEEPER: &[u8] = b"\x4A\x00\x00\x00\x01m\x34\x00\x00\x00\x00";

/// A job group with the collection media-col and the number of copies.
const MEDIA: &[&[u8]] = &[
    PRINT_JOB,
    b"\x02\x34\x00\x09media-col\x00\x00",
    b"\x4A\x00\x00\x00\x0Amedia-type\x44\x00\x00\x00\x05plain\x44\x00\x00\x00\x05heavy",
    b"\x4A\x00\x00\x00\x0Amedia-size\x34\x00\x00\x00\x00",
    b"\x4A\x00\x00\x00\x0Bx-dimension\x21\x00\x00\x00\x04\x00\x00\x52\x08",
    b"\x37\x00\x00\x00\x00\x37\x00\x00\x00\x00",
    b"\x21\x00\x06copies\x00\x04\xFF\xFF\xFF\xFE\x03",
];

fn joined(rt: &HostRuntime, parts: &[&[u8]]) -> Result<Vec<u8>, Fail> {
    let mut out = Vec::new(rt.alloc());
    for part in parts {
        out.extend_from_slice(part)?;
    }
    Ok(out)
}

fn fault_of(rt: &HostRuntime, parts: &[&[u8]]) -> Result<Option<CodecFault>, Fail> {
    let bytes = joined(rt, parts)?;
    Ok(decode(&bytes).err())
}

/// The beginning of an attribute that is a collection.
const BEGUN: &[u8] = b"\x01\x34\x00\x01a\x00\x00";

/// Messages that have no spelling, each with its first fault.
const MALFORMED: [(&[&[u8]], CodecFault); 9] = [
    (
        &[PRINT_JOB, b"\x01\x47\x00\x00\x00\x05utf-8\x03"],
        CodecFault::LooseValue,
    ),
    (
        &[
            PRINT_JOB,
            OPEN,
            URI,
            b"\x22\x00\x16ipp-attribute-fidelity\x00\x01\x02\x03",
        ],
        CodecFault::BadValue,
    ),
    (&[PRINT_JOB, OPEN, URI], CodecFault::Short),
    (&[PRINT_JOB, b"\x00"], CodecFault::BadTag),
    (&[PRINT_JOB, b"\x01\x47\x80\x00"], CodecFault::BadLength),
    (
        &[PRINT_JOB, b"\x01\x47\x00\x01a\x00\x00\x37\x00\x00\x00\x00"],
        CodecFault::BadCollection,
    ),
    (
        &[PRINT_JOB, b"\x01\x34\x00\x01a\x00\x00\x02"],
        CodecFault::BadCollection,
    ),
    (
        &[
            PRINT_JOB, BEGUN, DEEPER, DEEPER, DEEPER, DEEPER, DEEPER, DEEPER, DEEPER, DEEPER,
        ],
        CodecFault::TooDeep,
    ),
    (
        &[
            PRINT_JOB, BEGUN, DEEPER, DEEPER, DEEPER, DEEPER, DEEPER, DEEPER, DEEPER,
        ],
        CodecFault::Short,
    ),
];

#[test]
fn malformed_messages(rt: HostRuntime) -> Result<(), Fail> {
    for &(parts, fault) in &MALFORMED {
        assert_eq!(rt; fault_of(&rt, parts)?, Some(fault));
    }
    Ok(())
}

/// For a first attribute that is a collection: the number of its own bytes, the number of values of its first
/// member, and the number in the only member of its second and last member.
fn collection_of(bytes: &[u8]) -> Option<(usize, usize, i32)> {
    let (message, _) = decode(bytes).ok()?;
    let value = message.groups().next()?.attributes().next()?.first();
    let mut members = value.members();
    let kind = members.next()?;
    let size = members.next()?;
    let width = size.first().members().next()?;
    let is_media = value.tag() == ValueTag::COLLECTION && kind.name() == b"media-type".as_slice();
    if !is_media || members.next().is_some() {
        return None;
    }
    let width = width.first().as_integer()?;
    Some((value.bytes().len(), kind.values().count(), width))
}

#[test]
fn a_collection(rt: HostRuntime) -> Result<(), Fail> {
    let bytes = joined(&rt, MEDIA)?;
    assert_eq!(rt; collection_of(&bytes), Some((0, 2, 21000)));
    Ok(())
}

/// Decodes the parts, makes the message owned, and encodes it.
fn written_again(rt: &HostRuntime, parts: &[&[u8]]) -> Result<bool, Fail> {
    let bytes = joined(rt, parts)?;
    let (message, len) = decode(&bytes).ok().ok_or("it is a message")?;
    let message = message.to_owned(rt.alloc())?;
    let mut out = Vec::new(rt.alloc());
    encode(&message, &mut out).ok().ok_or("it has a spelling")?;
    Ok(len == bytes.len() && out == bytes)
}

#[test]
fn round_trip(rt: HostRuntime) -> Result<(), Fail> {
    assert!(rt; written_again(&rt, MEDIA)?);
    Ok(())
}

/// An attribute of one value.
fn attribute(
    rt: &HostRuntime,
    name: &[u8],
    tag: ValueTag,
    bytes: &[u8],
) -> Result<Attribute, AllocError> {
    Attribute::new(rt.alloc(), name, Value::copy_of(rt.alloc(), tag, bytes)?)
}

/// An attribute of two values.
fn media(rt: &HostRuntime) -> Result<Attribute, AllocError> {
    let mut media = attribute(rt, b"media", ValueTag::KEYWORD, b"a4")?;
    media.push(Value::copy_of(rt.alloc(), ValueTag::KEYWORD, b"a5")?)?;
    Ok(media)
}

/// An attribute that is a collection.
fn collection(rt: &HostRuntime) -> Result<Attribute, AllocError> {
    let mut members = Vec::new(rt.alloc());
    let number = Value::enumeration(-1);
    members.push(Member::new(rt.alloc(), b"x", number)?)?;
    Attribute::new(rt.alloc(), b"c", Value::collection(members))
}

fn job_group(rt: &HostRuntime) -> Result<Group, AllocError> {
    let mut group = Group::new(rt.alloc(), GroupTag::JOB);
    group.push(media(rt)?)?;
    group.push(collection(rt)?)?;
    Ok(group)
}

const MADE: &[u8] =
    b"before\x01\x01\x00\x02\x00\x00\x00\x01\x02\x44\x00\x05media\x00\x02a4\x44\x00\x00\x00\x02a5\x34\x00\x01c\x00\x00\x4A\x00\x00\x00\x01x\x23\x00\x00\x00\x04\xFF\xFF\xFF\xFF\x37\x00\x00\x00\x00\x03";

/// The bytes after `before` and the message of this group.
fn appended(rt: &HostRuntime, group: Group) -> Result<Vec<u8>, Fail> {
    let mut message = Message::new(rt.alloc(), Version { major: 1, minor: 1 }, 2, 1);
    message.push(group)?;
    let mut out = joined(rt, &[b"before"])?;
    encode(&message, &mut out).ok().ok_or("it has a spelling")?;
    Ok(out)
}

#[test]
fn values_that_are_made(rt: HostRuntime) -> Result<(), Fail> {
    let out = appended(&rt, job_group(&rt)?)?;
    assert!(rt; out.as_slice() == MADE);
    Ok(())
}

/// The reason why a message of one attribute has no spelling, and the bytes after the attempt to append it to
/// `before`.
fn refused(rt: &HostRuntime, attribute: Attribute) -> Result<(Option<EncodeFault>, Vec<u8>), Fail> {
    let mut group = Group::new(rt.alloc(), GroupTag::OPERATION);
    group.push(attribute)?;
    let mut message = Message::new(rt.alloc(), Version { major: 1, minor: 1 }, 2, 1);
    message.push(group)?;
    let mut out = joined(rt, &[b"before"])?;
    let fault = encode(&message, &mut out).err();
    Ok((fault, out))
}

/// A name of 32,768 bytes and a Boolean that is neither 0 nor 1 have no spelling; nothing is appended.
#[test]
fn unspellable_messages(rt: HostRuntime) -> Result<(), Fail> {
    let mut name = Vec::new(rt.alloc());
    for _ in 0..32_768 {
        name.push(b'a')?;
    }
    let attributes = [
        attribute(&rt, &name, ValueTag::KEYWORD, b"a4")?,
        attribute(&rt, b"ipp-attribute-fidelity", ValueTag::BOOLEAN, b"\x02")?,
    ];
    for attribute in attributes {
        let (fault, out) = refused(&rt, attribute)?;
        assert!(rt; matches!(fault, Some(EncodeFault::Unspellable)));
        assert!(rt; out.as_slice() == b"before".as_slice());
    }
    Ok(())
}
