//! A matter of files of which the length of the first counts alone.
ghost use Rattle.std.specs.Prelude.{◌≡◌, option_copied};
ghost use Rattle.shop_checks_tests.specs.Lengths.{stamp_length, file_length, first_length, limit_of, program_of};

use outside::{FileEntry, FilePath, Snapshot, Stamp, Stamps};
use reload_matter::Reloads;
use shop::Copies;
use std::alloc::{AllocError, Global};
use system_core::Matter;

/// The matter. A program is the length of its first file: 0 where there is none.
pub struct Lengths;

impl Matter for Lengths {
    ghost use Rattle.shop_checks_tests.specs.Lengths.{lengths, same_task_is};

    type Task = u32;

    type Value = u32;

    type Program = u64;

    type Request = u32;

    type Reply = u32;

    type Fault = u64;

    ghost facts = { lengths };

    fn same_task(a: &u32, b: &u32) -> bool {
        *a == *b
    }

    fn hash(task: &u32) -> u64 {
        u64::from(*task)
    }

    fn same_stamps(a: &u64, b: &u64) -> bool {
        *b == *a
    }

    fn changed_bytes(_before: &u64, after: &u64) -> u64 {
        *after
    }

    fn reply_bytes(reply: &u32) -> u64 {
        u64::from(*reply)
    }

    fn empty(_alloc: Global) -> Result<u64, AllocError> {
        Ok(0)
    }

    fn share(program: &u64) -> u64 {
        *program
    }

    ghost same_is_equal = { same_task_is };
}

// The length of a file by its stamp, or 0.
fn stamp_length(file: Option<&(FilePath, Stamp)>) -> u64
    ensures { result ≡ stamp_length (option_copied file.entry) }
{
    match file {
        Some(file) => file.1.length,
        None => 0,
    }
}

// The length of a file, or 0.
fn file_length(file: Option<&FileEntry>) -> u64
    ensures { result ≡ file_length (option_copied file.entry) }
{
    match file {
        Some(file) => file.stamp.length,
        None => 0,
    }
}

// The length of the first file, or 0.
fn first_length(stamps: &Stamps) -> u64
    ensures { result ≡ first_length stamps.now }
{
    stamp_length(stamps.as_slice().first())
}

// The limit that a first file of so many bytes exceeds.
fn limit_of(length: u64) -> Option<u64>
    ensures { result ≡ limit_of length }
{
    if 1000 <= length { Some(length) } else { None }
}

// The program of a first file of so many bytes.
fn program_of(length: u64) -> Result<u64, u64>
    ensures { result ≡ program_of length }
{
    if length == 13 { Err(13) } else { Ok(length) }
}

impl Reloads for Lengths {
    ghost use Rattle.shop_checks_tests.specs.Lengths.{first_lengths, built_has_stamps, built_same_stamps};

    ghost sources = { first_lengths };

    fn limit(stamps: &Stamps) -> Option<u64> {
        limit_of(first_length(stamps))
    }

    fn has_stamps(program: &u64, stamps: &Stamps) -> bool {
        *program == first_length(stamps)
    }

    #[tactic(auto, using(crate::specs::Lengths::first_is))]
    fn build(_alloc: Global, snapshot: Snapshot) -> Result<Result<u64, u64>, AllocError> {
        Ok(program_of(file_length(snapshot.files.as_slice().first())))
    }

    ghost programs_are = { λ files program is. tt };

    ghost has_its_stamps = { built_has_stamps };

    ghost same_stamps_are = { built_same_stamps };

    ghost limits_refuse = { λ stamps fault is. tt };

    ghost faults_refuse = { λ files fault is. tt };
}
