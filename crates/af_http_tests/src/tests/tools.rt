use af_http::{Counted, Ended, Service, serve};
use af_ops::{Body, Call, Op, Served, Shown, Status};
use std::alloc::{AllocError, Global};
use std::io;
use std::io::{Read, Write};
use std::process::Abort;

/// Gives at most so many bytes a read, and fails at this read.
#[derive(Drop)]
pub struct Pieces<'b> {
    pub left: &'b [u8],
    pub size: usize,
    pub fails_at: Option<usize>,
    pub reads: usize,
}

impl<'b> Pieces<'b> {
    pub fn of(left: &'b [u8], size: usize) -> Pieces<'b> {
        Pieces {
            left,
            size,
            fails_at: None,
            reads: 0,
        }
    }
}

impl<'b> Read for Pieces<'b> {
    fn read(&mut self, buffer: &mut [u8]) -> io::Result<usize> {
        self.reads = self.reads.saturating_add(1);
        if self.fails_at == Some(self.reads) {
            return Err(io::ErrorKind::Other.into());
        }
        let count = self.size.min(self.left.len()).min(buffer.len());
        let (piece, left) = self.left.split_at(count);
        buffer[..count].copy_from_slice(piece);
        self.left = left;
        Ok(count)
    }
}

/// Takes at most so many bytes a write, and fails, or takes none, at this write.
#[derive(Drop)]
pub struct Paper {
    pub bytes: Vec<u8>,
    pub size: usize,
    pub fails_at: Option<usize>,
    pub stalls_at: Option<usize>,
    pub writes: usize,
}

impl Paper {
    pub fn new(alloc: Global) -> Result<Paper, AllocError> {
        Ok(Paper {
            bytes: Vec::with_capacity(alloc, 400_000)?,
            size: usize::MAX,
            fails_at: None,
            stalls_at: None,
            writes: 0,
        })
    }
}

/// A writer that takes all that it is given.
pub fn new_paper(rt: &impl Abort, alloc: Global) -> Paper {
    Paper::new(alloc).expect(rt, "a writer")
}

/// A writer of this size that fails at this write, or takes no byte of it.
pub fn broken_paper(
    rt: &impl Abort,
    alloc: Global,
    size: usize,
    call: usize,
    stalls: bool,
) -> Paper {
    let mut paper = new_paper(rt, alloc);
    paper.size = size;
    if stalls {
        paper.stalls_at = Some(call);
    } else {
        paper.fails_at = Some(call);
    }
    paper
}

impl Write for Paper {
    fn write(&mut self, bytes: &[u8]) -> io::Result<usize> {
        self.writes = self.writes.saturating_add(1);
        if self.fails_at == Some(self.writes) {
            return Err(io::ErrorKind::Other.into());
        }
        if self.stalls_at == Some(self.writes) {
            return Ok(0);
        }
        let count = self.size.min(bytes.len());
        match self.bytes.extend_from_slice(&bytes[..count]) {
            Ok(()) => Ok(count),
            Err(_) => Err(io::ErrorKind::OutOfMemory.into()),
        }
    }

    fn flush(&mut self) -> io::Result<()> {
        Ok(())
    }
}

/// What the service answers.
#[derive(Clone, Copy)]
enum Answer {
    /// A body of many bytes.
    Long,
    /// No body, with the status that says so.
    Empty,
    /// The body of two bytes, with this status.
    Short(Status),
    /// There was no memory, and nothing was done.
    NoMemory,
}

/// Tokens, and what each is answered with.
const ANSWERS: &[(&[u8], Answer)] = &[
    (b"test", Answer::Long),
    (b"empty", Answer::Empty),
    (b"full", Answer::Short(Status::NoContent)),
    (b"memory", Answer::NoMemory),
];

/// What a token is answered with. One that is not listed is nobody's.
fn answer_to(token: &[u8]) -> Answer {
    for (known, answer) in ANSWERS {
        if *known == token {
            return *answer;
        }
    }
    Answer::Short(Status::Unauthorized)
}

/// The answers: the version to everybody; of all else, what the token says.
#[derive(Drop)]
pub struct Fixed {
    pub alloc: Global,
    /// The length of the body that the token `test` is given.
    pub length: usize,
    pub calls: usize,
}

impl Fixed {
    /// An answer that names version 3 and entry 70.
    fn told(status: Status, body: Option<Vec<u8>>) -> Served {
        Served::Shown(Shown {
            status,
            version: Some(3),
            seq: Some(70),
            body: body.map(Body::of),
        })
    }

    /// The version, which everybody is told.
    fn version(&self) -> Result<Served, AllocError> {
        let body = b"{\"git_version\":null,\"version\":\"afplane 1\"}";
        Ok(Served::Shown(Shown {
            status: Status::Ok,
            version: None,
            seq: None,
            body: Some(Body::of(Vec::from_slice(self.alloc, body)?)),
        }))
    }

    /// An answer with the body of two bytes.
    fn short(&self, status: Status) -> Result<Served, AllocError> {
        let body = Vec::from_slice(self.alloc, b"{}")?;
        Ok(Fixed::told(status, Some(body)))
    }

    /// The answer with the long body.
    fn long(&self) -> Result<Served, AllocError> {
        let body = vec![in self.alloc; b'x'; self.length]?;
        Ok(Fixed::told(Status::Ok, Some(body)))
    }

    fn served(&self, token: Option<&[u8]>, call: &Call) -> Result<Served, AllocError> {
        if matches!(call, Call::State(Op::Version)) {
            return self.version();
        }
        match answer_to(token.unwrap_or(b"")) {
            Answer::Long => self.long(),
            Answer::Empty => Ok(Fixed::told(Status::NoContent, None)),
            Answer::Short(status) => self.short(status),
            Answer::NoMemory => Ok(Served::NothingDone),
        }
    }
}

impl Service for Fixed {
    ghost answers = { λ old token call served new. Unit {0} };

    fn answer(&mut self, token: Option<&[u8]>, call: &Call) -> Served {
        self.calls = self.calls.saturating_add(1);
        match self.served(token, call) {
            Ok(served) => served,
            Err(_) => Served::NothingDone,
        }
    }
}

/// One connection: how it ended, what was written, and how often the service was called, whose long answers have so many
/// bytes.
pub fn run_long(
    alloc: Global,
    length: usize,
    pieces: Pieces<'_>,
    paper: Paper,
) -> (Ended, Paper, usize) {
    let mut reader = Counted::new(pieces);
    let mut writer = Counted::new(paper);
    let mut service = Fixed {
        alloc,
        length,
        calls: 0,
    };
    let ended = serve(alloc, &mut reader, &mut writer, &mut service);
    let Fixed { calls, .. } = service;
    (ended, writer.into_inner(), calls)
}

/// The same, whose answers have two bytes.
pub fn run(alloc: Global, pieces: Pieces<'_>, paper: Paper) -> (Ended, Paper, usize) {
    run_long(alloc, 2, pieces, paper)
}
