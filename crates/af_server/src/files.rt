// Files of at most 16 MiB.
ghost use Rattle.std.specs.Prelude.{◌≡◌, ◌≢◌, ◌≤◌, ◌<◌, ◌⊎◌, ℕ, List, true, false, length, vec_len, IfOk, IfErr};
ghost use Rattle.std.specs.IoError.{error_kind};
ghost use Rattle.af_http.specs.Streams.{IsWhole};
ghost use Rattle.af_server.specs.Configurations.{longest};
ghost use Rattle.af_server.specs.Files.{CameWhole, IsFileFault, IsPiece, IsPieceFault};
ghost use Rattle.af_server.specs.declared.reason.Reason.{Reason};

use crate::config::LONGEST;
use crate::reason::Reason;
use af_http::{Counted, Source};
use std::alloc::Global;
use std::fs::File;
use std::io::{self, ErrorKind};

/// How many bytes are read at once, at most.
const PIECE: usize = 16 * 1024;

/// Where files are found.
pub trait Files {
    /// Whether the file at a path may hold these bytes.
    ghost holds: { Self → List ℕ → List ℕ → Type 0 };

    /// Whether the file at a path may not be had for this reason.
    ghost refuses: { Self → List ℕ → Reason → Type 0 };

    /// Reads the file at a path to its end. `Memory` where a growth was refused.
    fn read(&self, alloc: Global, path: &str) -> Result<Vec<u8>, Reason>
        ensures held { IfOk result (λ bytes. holds self.now path.now bytes.items) }
        ensures refused { IfErr result (λ reason. refuses self.now path.now reason ⊎ (reason ≡ Reason.Memory)) };
}

/// The machine's files. Nothing is said of what they hold. `Unreadable` where a file can't be opened, where a read fails, and where it holds
/// more than 16 MiB.
impl Files for HostRuntime {
    ghost holds = { λ machine path bytes. length bytes ≤ longest };

    ghost refuses = { λ machine path reason. reason ≡ Reason.Unreadable };

    fn read(&self, alloc: Global, path: &str) -> Result<Vec<u8>, Reason> {
        match File::open(self, path) {
            Ok(file) => read_whole(alloc, &mut Counted::new(file)),
            Err(error) => Err(open_fault(&error)),
        }
    }
}

/// Why a file that the system does not open is refused: `Memory` where the system wants memory, else `Unreadable`.
pub fn open_fault(error: &io::Error) -> Reason
    ensures memory { error_kind error.now ≡ ErrorKind.OutOfMemory → result ≡ Reason.Memory }
    ensures unreadable { error_kind error.now ≢ ErrorKind.OutOfMemory → result ≡ Reason.Unreadable }
{
    if error.kind() == ErrorKind::OutOfMemory {
        Reason::Memory
    } else {
        Reason::Unreadable
    }
}

/// What a reader holds, to its end. `Unreadable` where a read failed or it holds more than 16 MiB; `Memory` only where a
/// growth was refused.
pub fn read_whole<F: Source>(alloc: Global, file: &mut F) -> Result<Vec<u8>, Reason>
    ensures whole { IfOk result (λ bytes. CameWhole (F.given file.old) (F.given file.new) bytes.items) }
    ensures fault { IfErr result (IsFileFault (F.given file.old) (F.given file.new)) }
    ensures reason { IfErr result (λ reason. (reason ≡ Reason.Unreadable) ⊎ (reason ≡ Reason.Memory)) }
{
    let mut bytes = Vec::new(alloc);
    while read_piece(file, &mut bytes)? {}
    Ok(bytes)
}

/// Reads a piece more, and tells whether there was one.
fn read_piece<F: Source>(file: &mut F, bytes: &mut Vec<u8>) -> Result<bool, Reason>
    requires { vec_len bytes.old ≤ longest }
    ensures piece { IfOk result (λ _. IsPiece (F.given file.old) (F.given file.new) bytes.old.items bytes.new.items) }
    ensures more { IfOk result (λ more. more ≡ true → length bytes.old.items < length bytes.new.items) }
    ensures end { IfOk result (λ more. more ≡ false → (F.given file.old).ends < (F.given file.new).ends) }
    ensures all { IfOk result (λ more. more ≡ false → IsWhole (F.given file.new)) }
    ensures fault { IfErr result (IsPieceFault (F.given file.old) (F.given file.new) bytes.old.items) }
{
    let mut room = [0; PIECE];
    let Ok(count) = file.read(&mut room) else {
        return Err(Reason::Unreadable);
    };
    if count > LONGEST - bytes.len() {
        return Err(Reason::Unreadable);
    }
    bytes.extend_from_slice(&room[..count])?;
    Ok(count != 0)
}
