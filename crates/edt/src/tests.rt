//! The real files and streams, over a folder that the test makes.

use crate::real::{RealFiles, RealOut};
use edt_base::{Files, ReadEnd, Text, write_text};
use std::alloc::{AllocError, Global};
use std::fs::File;
use std::test::Fail;
use std::{env, fs, process};

fn text(alloc: Global, s: &str) -> Result<Text, AllocError> {
    Ok(Text::new(String::from_str(alloc, s)?))
}

/// A folder's name with this behind it.
fn under(alloc: Global, folder: &str, name: &str) -> Result<String, AllocError> {
    format!(in alloc; "{folder}/{name}")
}

/// The names that a listing gives, each with a space behind it and the folder left out; `-` where it
/// fails, and `+` where there are too many.
fn listing<F: Files>(
    alloc: Global,
    files: &mut F,
    folder: &str,
    most: u32,
) -> Result<String, AllocError> {
    let mut shown = String::new(alloc);
    match files.list(alloc, &text(alloc, folder)?, most) {
        Ok(names) => {
            for name in &names {
                write!(
                    shown,
                    "{} ",
                    name.as_str().strip_prefix(folder).unwrap_or("?")
                )?;
            }
        }
        Err(ReadEnd::TooBig) => shown.push_str("+")?,
        Err(_) => shown.push_str("-")?,
    }
    Ok(shown)
}

/// What a read gives, `-` where it fails, and `+` where there is too much.
fn content<F: Files>(
    alloc: Global,
    files: &mut F,
    name: &str,
    most: u64,
) -> Result<String, AllocError> {
    match files.read(alloc, &text(alloc, name)?, most) {
        Ok(bytes) => String::from_str(alloc, str::from_utf8(bytes.as_slice()).unwrap_or("?")),
        Err(ReadEnd::TooBig) => String::from_str(alloc, "+"),
        Err(_) => String::from_str(alloc, "-"),
    }
}

#[test]
fn files_of_the_disk(rt: HostRuntime) -> Result<(), Fail> {
    let alloc = rt.alloc();
    let temporary = env::temp_dir(&rt)?;
    let top = format!(in alloc;
        "{}/edt-test-{}",
        temporary.as_str(),
        process::id(rt.process())
    )?;
    let top = top.as_str();
    fs::create_dir_all(&rt, under(alloc, top, "a/e.yaml")?.as_str())?;
    for name in ["c.yml", "a/e.yaml/f.yaml", "a/d.txt", "a/b.yaml"] {
        fs::write(&rt, under(alloc, top, name)?.as_str(), name)?;
    }
    let mut files = RealFiles::new(&rt);
    assert_eq!(rt;
        listing(alloc, &mut files, top, 9)?.as_str(),
        "/a/b.yaml /a/e.yaml/f.yaml /c.yml "
    );
    assert_eq!(rt; listing(alloc, &mut files, top, 2)?.as_str(), "+");
    assert_eq!(rt;
        listing(alloc, &mut files, under(alloc, top, "z")?.as_str(), 9)?.as_str(),
        "-"
    );
    assert_eq!(rt;
        content(alloc, &mut files, under(alloc, top, "c.yml")?.as_str(), 5)?.as_str(),
        "c.yml"
    );
    assert_eq!(rt;
        content(alloc, &mut files, under(alloc, top, "c.yml")?.as_str(), 4)?.as_str(),
        "+"
    );
    assert_eq!(rt;
        content(alloc, &mut files, under(alloc, top, "z")?.as_str(), 4)?.as_str(),
        "-"
    );
    assert_eq!(rt; content(alloc, &mut files, top, 4)?.as_str(), "-");

    // Folders nest 32 deep below the listed one, and no deeper.
    let mut deep = String::from_str(alloc, top)?;
    for _ in 0..32 {
        deep.push_str("/d")?;
    }
    fs::create_dir_all(&rt, deep.as_str())?;
    assert_eq!(rt;
        listing(alloc, &mut files, top, 3)?.as_str(),
        "/a/b.yaml /a/e.yaml/f.yaml /c.yml "
    );
    deep.push_str("/d")?;
    fs::create_dir_all(&rt, deep.as_str())?;
    assert_eq!(rt; listing(alloc, &mut files, top, 3)?.as_str(), "-");

    // A sink writes what it is given, and fails where the system refuses it.
    let file = under(alloc, top, "out")?;
    let mut out = RealOut::new(File::create(&rt, file.as_str())?);
    assert!(rt; write_text(&mut out, b"written").is_ok());
    assert_eq!(rt;
        content(alloc, &mut files, file.as_str(), 99)?.as_str(),
        "written"
    );
    let mut shut = RealOut::new(File::open(&rt, file.as_str())?);
    assert!(rt; write_text(&mut shut, b"refused").is_err());
    fs::remove_dir_all(&rt, top)?;
    Ok(())
}
