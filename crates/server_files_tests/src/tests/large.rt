//! Files that are longer than the part that is compared at once.
use cog_server::Server;
use disk_files::Watched;
use std::fs;
use std::process::Abort;
use std::rt::{Clock, Files};
use std::test::Fail;

const PATH: &str = "served_files_tests_large";

/// Writes the file. Expects that it is published anew, as it is, and not once more.
fn expect_anew<R: Abort + Files + Clock + AllocGlobal>(
    rt: &R,
    server: &mut Server,
    watched: &mut Watched<'_>,
    file: &[u8],
) -> Result<(), Fail> {
    fs::write(rt, PATH, file)?;
    assert!(rt; matches!(watched.publish_changed(rt, server, 0), Ok(Some(_))));
    assert!(rt; server.file(b"a") == Some(file));
    assert!(rt; matches!(watched.publish_changed(rt, server, 0), Ok(None)));
    Ok(())
}

/// Expects that each change is published. These are another last byte, no last byte, one byte more, and a file that is cut after 131,072
/// bytes, and after 65,536.
#[test]
fn sees_each_change_of_a_large_file(rt: HostRuntime) -> Result<(), Fail> {
    let mut server = Server::new(rt.alloc(), 7);
    let mut watched = Watched::new("a", PATH);
    let mut file = vec![in rt.alloc(); b'x'; 200_000]?;
    expect_anew(&rt, &mut server, &mut watched, &file)?;
    let _ = file.pop();
    file.push(b'y')?;
    expect_anew(&rt, &mut server, &mut watched, &file)?;
    let _ = file.pop();
    expect_anew(&rt, &mut server, &mut watched, &file)?;
    file.push(b'x')?;
    expect_anew(&rt, &mut server, &mut watched, &file)?;
    file.truncate(131_072);
    expect_anew(&rt, &mut server, &mut watched, &file)?;
    file.truncate(65_536);
    expect_anew(&rt, &mut server, &mut watched, &file)?;
    fs::remove_file(&rt, PATH)?;
    Ok(())
}
