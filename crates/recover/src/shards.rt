// The shard files of a folder.
use crate::refusal::Refusal;
use crate::request::Request;
use std::alloc::{AllocError, Global};
use std::io::ErrorKind;
use std::{fs, io};

#[derive(Drop)]
pub(crate) struct ShardFiles {
    files: Vec<Option<Vec<u8>>>,
}

impl ShardFiles {
    // Each shard's bytes where its file is there.
    pub(crate) fn views(&self, heap: Global) -> Result<Vec<Option<&[u8]>>, AllocError> {
        self.files.iter().map(|file| file.as_deref()).collect(heap)
    }
}

// The bytes of one file; none where there is no such file.
fn read_shard(rt: &HostRuntime, folder: &str, i: usize) -> Result<Option<Vec<u8>>, Refusal> {
    let path = format!(in rt.alloc(); "{folder}/shard-{i}")?;
    match fs::read(rt, path.as_str()) {
        Err(e) if e.kind() == ErrorKind::NotFound => Ok(None),
        read => Ok(Some(read?)),
    }
}

pub(crate) fn read_shards(rt: &HostRuntime, request: &Request<'_>) -> Result<ShardFiles, Refusal> {
    if !fs::metadata(rt, request.folder)?.is_dir() {
        return Err(Refusal::File(io::Error::from(ErrorKind::NotADirectory)));
    }
    let files = (0..request.block.schema.units())
        .map(|i| read_shard(rt, request.folder, i))
        .try_collect(rt.alloc())?;
    Ok(ShardFiles { files })
}
