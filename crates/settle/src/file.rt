// A regular file is written whole: beside its name, then renamed over it, so that an old one stands until the new one does. A link, a
// device or a pipe is written as it stands. Every failure is told on standard error.
use atoms::little_endian;
use std::fs::{Files, OpenFile, OpenOptions};
use std::io::{Error, ErrorKind, Seek, SeekFrom, Write};
use std::random::RandomSource;
use std::{fs, io, str};
use streams::Told;
use text::Draft;

// No path has so many bytes.
pub const PATH_MAX: usize = 4096;

fn is_link(files: &impl Files, path: &str) -> bool {
    fs::symlink_metadata(files, path).is_ok_and(|found| found.is_symlink())
}

// Only a regular file can be cut at its own end.
fn can_be_cut(file: &mut (impl Seek + OpenFile)) -> bool {
    file.seek(SeekFrom::End(0))
        .is_ok_and(|end| file.set_len(end).is_ok())
}

// Writes all of the bytes. Those of a regular file have then reached their device, and nothing is left that its closing could tell.
fn put(file: &mut (impl Write + OpenFile), bytes: &[u8]) -> io::Result<()> {
    file.write_all(bytes)?;
    if file.metadata()?.is_file() {
        file.sync_all()?;
    }
    Ok(())
}

// Writes the bytes to an open file and closes it; a failure is told before.
fn fill(
    rt: &impl Eprint,
    path: &str,
    mut file: impl Write + OpenFile + Drop,
    bytes: &[u8],
) -> Result<(), Told> {
    put(&mut file, bytes).map_err(|error| streams::tell(rt, path, error))
}

// A name that no other file is likely to have: the path, a dot and a random number.
fn write_name_beside(source: &impl RandomSource, path: &str, name: &mut Draft) {
    let mut random = [0u8; 4];
    let _ = source.fill_bytes(&mut random);
    name.word(path.as_bytes());
    name.figure(b".", little_endian::number(&random, 0, 4));
}

// Empty where it is too long.
fn name_in<'a>(name: &'a Draft) -> &'a str {
    if name.is_full() {
        return "";
    }
    str::from_utf8(name.written()).unwrap_or("")
}

// Writes the bytes beside the path and renames that file over it; where this fails, removes it. A failure is told before.
fn replace_by(
    rt: &(impl Files + Eprint),
    beside: &str,
    path: &str,
    bytes: &[u8],
) -> Result<(), Told> {
    let file = OpenOptions::new()
        .write(true)
        .create_new(true)
        .open(rt, beside)
        .map_err(|error| streams::tell(rt, path, error))?;
    let saved = fill(rt, path, file, bytes).and_then(|()| {
        fs::rename(rt, beside, path).map_err(|error| streams::tell(rt, path, error))
    });
    if saved.is_err() {
        let _ = fs::remove_file(rt, beside);
    }
    saved
}

fn replace(
    rt: &(impl Files + Eprint + RandomSource),
    path: &str,
    bytes: &[u8],
) -> Result<(), Told> {
    let mut buffer = [0u8; PATH_MAX];
    let mut name = Draft::new(&mut buffer);
    write_name_beside(rt, path, &mut name);
    replace_by(rt, name_in(&name), path, bytes)
}

fn write(rt: &(impl Files + Eprint + RandomSource), path: &str, bytes: &[u8]) -> Result<(), Told> {
    if is_link(rt, path) {
        let file = fs::create(rt, path).map_err(|error| streams::tell(rt, path, error))?;
        return fill(rt, path, file, bytes);
    }
    match OpenOptions::new().append(true).open(rt, path) {
        Err(error) if error.kind() == ErrorKind::NotFound => replace(rt, path, bytes),
        Err(error) => Err(streams::tell(rt, path, error)),
        Ok(mut file) => {
            if can_be_cut(&mut file) {
                drop(file);
                return replace(rt, path, bytes);
            }
            fill(rt, path, file, bytes)
        }
    }
}

// Writes the bytes to the file. A path is text.
pub fn save(
    rt: &(impl Files + Eprint + RandomSource),
    path: &[u8],
    bytes: &[u8],
) -> Result<(), Told> {
    let path = str::from_utf8(path).map_err(|_| {
        let error = Error::new(ErrorKind::InvalidFilename, "it is no UTF-8 text");
        streams::tell(rt, "the name of the file", error)
    })?;
    write(rt, path, bytes)
}
