// What went out and what is held, as it is written in a case.
use std::alloc::{AllocError, Global};
use tcp_connection::{Head, Owed};

/// Puts a segment that goes out behind those that did.
pub fn put_segment(
    text: &mut String,
    alloc: Global,
    owed: &Owed,
    head: Head,
) -> Result<(), AllocError> {
    if !text.is_empty() {
        text.push_str("; ")?;
    }
    text.push_str(name_of(alloc, owed)?.as_str())?;
    text.push_str(numbers_of(alloc, owed, head)?.as_str())?;
    match head.scale {
        Some(scale) => text.push_str(format!(in alloc; " ws{scale}")?.as_str()),
        None => Ok(()),
    }
}

fn name_of(alloc: Global, owed: &Owed) -> Result<String, AllocError> {
    match owed {
        Owed::Syn => "Syn ".to_string(alloc),
        Owed::SynAck => "SynAck ".to_string(alloc),
        Owed::Ack => "Ack ".to_string(alloc),
        Owed::Reset { .. } => "Reset ".to_string(alloc),
        Owed::Data(piece) => {
            let fin = if piece.fin { ",fin" } else { "" };
            format!(in alloc; "Data({},{}{fin}) ", piece.place, piece.length)
        }
    }
}

fn numbers_of(alloc: Global, owed: &Owed, head: Head) -> Result<String, AllocError> {
    let (seq, ack, window) = (head.seq.0, head.ack.0, head.window);
    match owed {
        Owed::Syn => format!(in alloc; "{seq} w{window}"),
        Owed::Reset { .. } if window == 0 => format!(in alloc; "{seq}/{ack}"),
        _ => format!(in alloc; "{seq}/{ack} w{window}"),
    }
}

/// Puts the moment until which a connection waits.
pub fn put_timer(text: &mut String, alloc: Global, until: Option<u64>) -> Result<(), AllocError> {
    match until {
        Some(moment) => text.push_str(format!(in alloc; " timer {moment}")?.as_str()),
        None => text.push_str(" no timer"),
    }
}

/// Puts the first octets of these, so many: `x15 k5` stands for fifteen x and five k.
pub fn put_runs(
    text: &mut String,
    alloc: Global,
    octets: &[u8],
    count: usize,
) -> Result<(), AllocError> {
    text.push_str(" holds")?;
    let mut run = 0u32;
    let mut last = 0;
    for octet in octets.iter().take(count) {
        if *octet != last {
            put_run(text, alloc, last, run)?;
            run = 0;
            last = *octet;
        }
        run = run.saturating_add(1);
    }
    put_run(text, alloc, last, run)
}

fn put_run(text: &mut String, alloc: Global, letter: u8, run: u32) -> Result<(), AllocError> {
    if run == 0 {
        return Ok(());
    }
    let letter = char::from(letter);
    text.push_str(format!(in alloc; " {letter}{run}")?.as_str())
}
