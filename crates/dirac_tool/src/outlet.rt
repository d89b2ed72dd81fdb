use dirac_commands::{Words, recon_path, tells_reconstructions};
use std::fs::File;
use std::io::{Result as Outcome, Stderr, Write};

/// Where goes what is said beside what comes out.
#[derive(Drop)]
pub enum Outlet {
    File(File),
    Stderr(Stderr),
    /// All is taken, and lost.
    Nowhere,
}

impl Write for Outlet {
    fn write(&mut self, piece: &[u8]) -> Outcome<usize> {
        match self {
            Outlet::File(file) => file.write(piece),
            Outlet::Stderr(stderr) => stderr.write(piece),
            Outlet::Nowhere => Ok(piece.len()),
        }
    }

    fn flush(&mut self) -> Outcome<()> {
        match self {
            Outlet::File(file) => file.flush(),
            Outlet::Stderr(stderr) => stderr.flush(),
            Outlet::Nowhere => Ok(()),
        }
    }
}

/// Where reconstructions go: to the file that the words name, which is made, or nowhere. What other commands say
/// beside what comes out goes to standard error. Where standard output is closed there is no file, since it would be
/// written to as standard output. It hands a writer of the library on, of which nothing is claimed.
pub fn beside(rt: &HostRuntime, words: &Words) -> Outcome<Outlet> {
    match recon_path(words) {
        Some(path) if takes_bytes(&mut rt.stdout()) => Ok(Outlet::File(File::create(rt, path)?)),
        Some(_) => Ok(Outlet::Nowhere),
        None if tells_reconstructions(words) => Ok(Outlet::Nowhere),
        None => Ok(Outlet::Stderr(rt.stderr())),
    }
}

/// Where texts go: to standard error, or nowhere, where that is closed. It hands a writer of the library on, of which
/// nothing is claimed.
pub fn texts(rt: &HostRuntime) -> Outlet {
    if takes_bytes(&mut rt.stderr()) {
        Outlet::Stderr(rt.stderr())
    } else {
        Outlet::Nowhere
    }
}

// Whether a writer takes an empty piece, which one that is closed refuses.
fn takes_bytes<W: Write>(writer: &mut W) -> bool {
    writer.write(&[]).is_ok()
}
