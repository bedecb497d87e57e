// Making the folders on the way to a file.
use crate::open::sync_folder;
use std::fs::{self, DirBuilder, Permissions};
use std::io;
use std::os::unix::fs::{DirBuilderExt, PermissionsExt};

/// Makes the folders of a path that are missing, each with this mode whatever the umask. With `fsync`
/// the folder that one is made in is made stable, and one for which that fails is taken away again. Those
/// that are there stay as they are.
pub(crate) fn make_folders(rt: &HostRuntime, path: &str, mode: u16, fsync: bool) -> io::Result<()> {
    for end in 1..path.len() {
        if let Some((folder, rest)) = path.split_at_checked(end) {
            if rest.starts_with('/') && !is_folder(rt, folder) {
                make_folder(rt, folder, u32::from(mode), fsync)?;
            }
        }
    }
    Ok(())
}

fn is_folder(rt: &HostRuntime, path: &str) -> bool {
    match fs::metadata(rt, path) {
        Ok(about) => about.is_dir(),
        Err(_) => false,
    }
}

fn make_folder(rt: &HostRuntime, path: &str, mode: u32, fsync: bool) -> io::Result<()> {
    let mut how = DirBuilder::new();
    how.mode(mode);
    how.create(rt, path)?;
    let made = finish_folder(rt, path, mode, fsync);
    if made.is_err() {
        let _left = fs::remove_dir(rt, path);
    }
    made
}

fn finish_folder(rt: &HostRuntime, path: &str, mode: u32, fsync: bool) -> io::Result<()> {
    fs::set_permissions(rt, path, Permissions::from_mode(mode))?;
    if fsync {
        sync_folder(rt, path)?;
    }
    Ok(())
}
