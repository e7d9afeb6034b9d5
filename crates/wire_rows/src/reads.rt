// Requests read one after another, from sources in memory.
use case_files::quoted;
use ck_base::NoMemory;
use ck_devices::{MemSource, Source};
use http_front::{Buffer, FrontFault, Request, read_request};
use std::alloc::Global;

/// The sizes of the pieces that a source gives.
const PIECES: [usize; 4] = [1, 2, 64, 65_536];

/// More requests than a row has.
const MOST: u64 = 1_000;

/// The requests at the front of the bytes, and then the fault with what was not taken. It is to be
/// the same in pieces of each size.
pub fn requests_told(alloc: Global, bytes: &[u8]) -> Result<String, NoMemory> {
    let mut told = String::new(alloc);
    for piece in PIECES {
        let mut source = MemSource::new(bytes.to_vec(alloc)?, piece.max(1), Vec::new(alloc));
        let one = read_all(alloc, &mut source, &mut Buffer::new(alloc))?;
        if !told.is_empty() && told.as_str() != one.as_str() {
            told.push_str(", but in other pieces ")?;
            told.push_str(one.as_str())?;
            return Ok(told);
        }
        told = one;
    }
    Ok(told)
}

/// The same where bytes come one at a time and a read fails once: the fault is told, the buffer keeps
/// what was read, and the next call reads on. It is to be the same for each read.
pub fn after_faults_told(alloc: Global, bytes: &[u8]) -> Result<String, NoMemory> {
    let mut told = String::new(alloc);
    for count in 0..bytes.len() {
        let one = after_fault(alloc, bytes, count)?;
        if count > 0 && told.as_str() != one.as_str() {
            told.push_str(", but after a later fault ")?;
            told.push_str(one.as_str())?;
            return Ok(told);
        }
        told = one;
    }
    Ok(told)
}

// What is read where the read behind so many bytes fails once.
fn after_fault(alloc: Global, bytes: &[u8], count: usize) -> Result<String, NoMemory> {
    let fails = vec![in alloc; (count as u64).saturating_add(1)]?;
    let mut source = MemSource::new(bytes.to_vec(alloc)?, 1, fails);
    let mut buffer = Buffer::new(alloc);
    let fault = read_request(alloc, &mut source, &mut buffer).err();
    let kept = &bytes[..count.min(bytes.len())];
    if fault != Some(FrontFault::ReadFault) || source.faults() != 1 || buffer.as_slice() != kept {
        return Ok(String::from_str(alloc, "no fault of this read alone")?);
    }
    read_all(alloc, &mut source, &mut buffer)
}

fn read_all(
    alloc: Global,
    source: &mut MemSource,
    buffer: &mut Buffer,
) -> Result<String, NoMemory> {
    let mut told = String::new(alloc);
    for _ in 0..MOST {
        match read_request(alloc, source, buffer) {
            Ok(request) => push_request(alloc, &mut told, &request)?,
            Err(fault) => {
                told.push_str(fault_name(fault))?;
                push_quoted(alloc, &mut told, &untaken(alloc, source, buffer)?)?;
                return Ok(told);
            }
        }
    }
    Ok(told)
}

// What the buffer holds, and then what the source still gives.
fn untaken(alloc: Global, source: &mut MemSource, buffer: &Buffer) -> Result<Vec<u8>, NoMemory> {
    let mut bytes = buffer.as_slice().to_vec(alloc)?;
    let mut into = [0u8; 64];
    for _ in 0..u64::MAX {
        match source.read(&mut into) {
            Ok(0) => break,
            Ok(count) => bytes.extend_from_slice(&into[..count.min(64)])?,
            Err(_) => {}
        }
    }
    Ok(bytes)
}

fn push_quoted(alloc: Global, told: &mut String, bytes: &[u8]) -> Result<(), NoMemory> {
    told.push_str(" ")?;
    told.push_str(quoted(alloc, bytes)?.as_str())?;
    Ok(())
}

fn push_request(alloc: Global, told: &mut String, request: &Request) -> Result<(), NoMemory> {
    let close = if request.close { "closing" } else { "open" };
    told.push_str(close)?;
    push_quoted(alloc, told, request.method.as_slice())?;
    push_quoted(alloc, told, request.target.as_slice())?;
    push_quoted(alloc, told, request.body.as_slice())?;
    told.push_str(", ")?;
    Ok(())
}

fn fault_name(fault: FrontFault) -> &'static str {
    match fault {
        FrontFault::Ended => "Ended",
        FrontFault::Cut => "Cut",
        FrontFault::BadHead => "BadHead",
        FrontFault::HeadTooLong => "HeadTooLong",
        FrontFault::NoLength => "NoLength",
        FrontFault::BodyTooLong => "BodyTooLong",
        FrontFault::ReadFault => "ReadFault",
        FrontFault::NoMemory => "NoMemory",
    }
}
