//! What is told of the versions of a store.
ghost use Rattle.std.specs.Prelude.{◌≡◌, ◌<◌, IfOk, IsSomeAnd, length, map, slice_get, take};
ghost use Rattle.mn_hist.specs.Audit.{IsToldOf, told_with, version_told, versions_told};

use mn_base::{NoMemory, TryCopy, Version, VersionNo};
use mn_plain::Store;
use mn_report::{VersionLine, VersionLines};
use std::alloc::Global;

/// The number of the version at this place. NoMemory: there is no such number.
fn version_at(at: usize) -> Result<VersionNo, NoMemory>
    ensures { IfOk result (λ version. version ≡ record { 0 = at }) }
{
    match u8::try_from(at) {
        Ok(number) => Ok(VersionNo(number)),
        Err(_) => Err(NoMemory),
    }
}

/// How many pairs a version has. NoMemory: more than are counted.
fn pair_count(store: &Store, number: VersionNo) -> Result<u32, NoMemory>
    requires { number.0 < length store.now }
    ensures { IfOk result (λ count.
        IsSomeAnd (slice_get store.now number.0) (λ v. count ≡ length v.pairs)) }
{
    match u32::try_from(store.count(number)) {
        Ok(count) => Ok(count),
        Err(_) => Err(NoMemory),
    }
}

/// How many pairs a version has, and their digest, where these are the lines of those before it:
/// what is told of a version with the same pairs isn't found again. NoMemory: there was no memory
/// for it, or more pairs than are counted.
fn pairs_told(
    alloc: Global,
    store: &Store,
    number: VersionNo,
    lines: &[VersionLine],
) -> Result<(u32, [u8; 32]), NoMemory>
    requires there { number.0 < length store.now }
    requires lines { lines.now ≡ map (version_told store.now) (take number.0 store.now) }
    ensures { IfOk result (λ told.
        IsSomeAnd (slice_get store.now number.0) (IsToldOf told.0 told.1)) }
{
    if let Some(twin) = store.twin(number) {
        let line = &lines[usize::from(twin.0)];
        return Ok((line.count, line.digest));
    }
    Ok((pair_count(store, number)?, store.digest(alloc, number)?))
}

/// The line of a version, which is listed so, behind these.
fn version_line(
    alloc: Global,
    store: &Store,
    number: VersionNo,
    version: &Version,
    lines: &[VersionLine],
) -> Result<VersionLine, NoMemory>
    requires there { number.0 < length store.now }
    requires lines { lines.now ≡ map (version_told store.now) (take number.0 store.now) }
    ensures { IfOk result (λ line.
        IsSomeAnd (slice_get store.now number.0) (λ v. line ≡ told_with version.now v)) }
{
    let (count, digest) = pairs_told(alloc, store, number, lines)?;
    Ok(VersionLine {
        name: version.name.try_copy(alloc)?,
        parent: version.parent.try_copy(alloc)?,
        frozen: version.frozen,
        count,
        digest,
    })
}

/// The versions of a store in order of number. NoMemory: there was no memory for the lines, or a
/// version has more pairs than are counted.
pub fn versions_of(alloc: Global, store: &Store) -> Result<VersionLines, NoMemory>
    ensures { IfOk result (λ lines. lines ≡ versions_told store.now) }
{
    let listing = store.listing(alloc)?;
    let mut lines = Vec::with_capacity(alloc, listing.as_slice().len())?;
    for (at, version) in listing.as_slice().iter().enumerate() {
        let line = version_line(alloc, store, version_at(at)?, version, &lines)?;
        lines.push(line)?;
    }
    Ok(VersionLines::from_vec(lines))
}
