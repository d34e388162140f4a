ghost use Rattle.std.specs.Prelude.{◌≡◌, ℕ, ◌+◌, ◌<◌, ◌≤◌, ◌==◌, ◌∷◌, ◌++◌, [], true, false, Some, None, Ok, Err, IfOk, IfErr, IfSome, OnOk, OnErr, IsSomeAnd, length, vec_len, string_bytes};
ghost use Rattle.std.specs.Option.{option_map};
ghost use Rattle.xb_io.specs.Failing.{is_listed};
ghost use Rattle.xb_io.specs.Counts.{HasRisen, HasRisenBy, raised_by};
ghost use Rattle.xb_io.specs.LoadError.{IfFailed, IfTooBig, UnlessFailed};
ghost use Rattle.xb_io.specs.MemFile.{contents_of, contents_or_empty};

use crate::asked::Asked;
use crate::failing::is_listed;
use crate::files::{FILE_LIMIT, Files, LoadError};
use std::alloc::{AllocError, Global};

/// A file in memory.
#[derive(Drop)]
pub struct MemFile {
    pub name: String,
    pub bytes: Vec<u8>,
}

impl MemFile {
    pub fn new(alloc: Global, name: &str, bytes: &[u8]) -> Result<MemFile, AllocError>
        ensures name { IfOk result (λ file. string_bytes file.name ≡ name.now) }
        ensures bytes { IfOk result (λ file. file.bytes.items ≡ bytes.now) }
    {
        Ok(MemFile {
            name: String::from_str(alloc, name)?,
            bytes: Vec::from_slice(alloc, bytes)?,
        })
    }
}

/// Files in memory, with a list of the calls of `load`, counted from 0, that are to fail. A name that
/// isn't listed has no file.
#[derive(Drop)]
pub struct MemFiles {
    pub files: Vec<MemFile>,
    pub failing: Vec<u64>,
    pub calls: u64,
    pub asked: Asked,
    pub faults: u64,
    pub taken: u64,
}

impl MemFiles {
    pub fn new(files: Vec<MemFile>, failing: Vec<u64>) -> MemFiles
        ensures files { result.files ≡ files }
        ensures failing { result.failing ≡ failing }
        ensures asked { result.asked.names ≡ [] }
        ensures counts { (result.calls ≡ 0) × (result.faults ≡ 0) × (result.taken ≡ 0) }
    {
        MemFiles {
            files,
            failing,
            calls: 0,
            asked: Asked::new(),
            faults: 0,
            taken: 0,
        }
    }
}

impl Files for MemFiles {
    ghost told = { λ it. Some (contents_of it.files.items) };

    ghost asked = { λ it. it.asked.names };

    ghost faults = { λ it. it.faults };

    ghost taken = { λ it. it.taken };

    fn load(&mut self, alloc: Global, name: &str) -> Result<Vec<u8>, LoadError>
        ensures told_stays { Some (contents_of self.new.files.items) ≡ Some (contents_of self.old.files.items) }
        ensures asks { self.new.asked.names ≡ self.old.asked.names ++ name.now ∷ [] }
        ensures faults_never_fall { self.old.faults ≤ self.new.faults }
        ensures taken_never_falls { self.old.taken ≤ self.new.taken }

        ensures ok_within_limit { IfOk result (λ bytes. vec_len bytes ≤ FILE_LIMIT) }
        ensures ok_as_told { IfOk result (λ bytes. IfSome (Some (contents_of self.old.files.items)) (λ holds. holds name.now ≡ Some bytes.items)) }
        ensures ok_taken { IfOk result (λ bytes. self.new.taken ≡ raised_by (vec_len bytes) self.old.taken) }
        ensures ok_without_fault { OnOk result (self.new.faults ≡ self.old.faults) }
        ensures failed { IfErr result (λ e. IfFailed e (HasRisen self.old.faults self.new.faults)) }
        ensures unless_failed { IfErr result (λ e. UnlessFailed e (self.new.faults ≡ self.old.faults)) }
        ensures too_big { IfErr result (λ e. IfTooBig e (λ found. found ≡ FILE_LIMIT + 1)) }
        ensures too_big_taken { IfErr result (λ e. IfTooBig e (λ _. HasRisenBy (FILE_LIMIT + 1) self.old.taken self.new.taken)) }
        ensures too_big_as_told { IfErr result (λ e. IfTooBig e (λ _.
            IfSome (Some (contents_of self.old.files.items)) (λ holds. IsSomeAnd (holds name.now) (λ bytes. FILE_LIMIT < length bytes)))) }

        // Each call counts. A listed one fails, and no other call for a file that is there does.
        ensures calls { self.new.calls ≡ raised_by 1 self.old.calls }
        ensures failing_stays { self.new.failing ≡ self.old.failing }
        ensures listed_fails { is_listed self.old.failing.items self.old.calls ≡ true → result ≡ Err LoadError.Failed }
        ensures held_is_given { is_listed self.old.failing.items self.old.calls ≡ false →
            IfSome (contents_of self.old.files.items name.now) (λ _. IfErr result (λ e. IfFailed e ⊥)) }
        ensures failed_takes_nothing { IfErr result (λ e. IfFailed e (self.new.taken ≡ self.old.taken)) }
    {
        let call = self.calls;
        self.calls = call.saturating_add(1);
        self.asked.note(name.as_bytes());
        if is_listed(&self.failing, call) {
            return Err(fault(&mut self.faults));
        }
        match find(&self.files, name) {
            Some(file) => copy_within_limit(alloc, &file.bytes, &mut self.taken),
            None => Err(fault(&mut self.faults)),
        }
    }
}

/// Files in memory without any fault: a name that isn't listed holds an empty file.
#[derive(Drop)]
pub struct FaultFreeFiles {
    pub files: Vec<MemFile>,
    pub asked: Asked,
    pub taken: u64,
}

impl FaultFreeFiles {
    pub fn new(files: Vec<MemFile>) -> FaultFreeFiles
        ensures files { result.files ≡ files }
        ensures asked { result.asked.names ≡ [] }
        ensures taken { result.taken ≡ 0 }
    {
        FaultFreeFiles {
            files,
            asked: Asked::new(),
            taken: 0,
        }
    }
}

impl Files for FaultFreeFiles {
    ghost told = { λ it. Some (contents_or_empty it.files.items) };

    ghost asked = { λ it. it.asked.names };

    ghost faults = { λ _. 0 };

    ghost taken = { λ it. it.taken };

    fn load(&mut self, alloc: Global, name: &str) -> Result<Vec<u8>, LoadError> {
        self.asked.note(name.as_bytes());
        match find(&self.files, name) {
            Some(file) => copy_within_limit(alloc, &file.bytes, &mut self.taken),
            None => copy_within_limit(alloc, &[], &mut self.taken),
        }
    }
}

/// The first file of that name.
fn find<'a>(files: &'a [MemFile], name: &str) -> Option<&'a MemFile>
    ensures { option_map (λ file. file.now.bytes.items) result ≡ contents_of files.now name.now }
{
    for file in files {
        if file.name.as_str() == name {
            return Some(file);
        }
    }
    None
}

/// A fault of the outside, which is counted.
fn fault(faults: &mut u64) -> LoadError
    ensures result_is { result ≡ LoadError.Failed }
    ensures counted { faults.new ≡ raised_by 1 faults.old }
    ensures never_falls { faults.old ≤ faults.new }
{
    *faults = faults.saturating_add(1);
    LoadError::Failed
}

/// A copy of a file's bytes, which counts those that it takes.
fn copy_within_limit(alloc: Global, bytes: &[u8], taken: &mut u64) -> Result<Vec<u8>, LoadError>
    ensures copy { IfOk result (λ copy. copy.items ≡ bytes.now) }
    ensures within_limit { OnOk result (length bytes.now ≤ FILE_LIMIT) }
    ensures ok_taken { OnOk result (taken.new ≡ raised_by (length bytes.now) taken.old) }
    ensures taken_never_falls { taken.old ≤ taken.new }
    ensures not_failed { IfErr result (λ e. IfFailed e ⊥) }
    ensures too_big { IfErr result (λ e. IfTooBig e (λ found.
        (found ≡ FILE_LIMIT + 1) × HasRisenBy (FILE_LIMIT + 1) taken.old taken.new × (FILE_LIMIT < length bytes.now))) }
{
    if bytes.len() > FILE_LIMIT {
        let found = FILE_LIMIT as u64 + 1;
        *taken = taken.saturating_add(found);
        return Err(LoadError::TooBig(found));
    }
    let copy = Vec::from_slice(alloc, bytes)?;
    *taken = taken.saturating_add(bytes.len() as u64);
    Ok(copy)
}
