//! Lines that can all be removed together without changing the map, and the line after which there are too many ranges.

ghost use Rattle.std.specs.Prelude.{◌≡◌, ◌≢◌, ◌≤◌, ◌^◌, ◌++◌, ℕ, IfNone, IfOk, IfSome, List, Ok, OnOk, [], ◌∷◌, false, true};
ghost use Rattle.std.specs.List.{All};
ghost use Rattle.pmp_encoding.specs.declared.perm.Perm.TheVariants.{NoAccess};
ghost use Rattle.permission_map.specs.Runs.{end_of};
ghost use Rattle.input_files.specs.Settings.{AreIdle, IsAllowedOn, IsDeniedOn, IsInside, IsRedundantDenial, IsRemark, IsTooManyAfter, LeadElsewhere, SetTo};

use permission_map::{MapBuilder, MapFault, Memory, PermissionMap, Run};
use pmp_encoding::Perm;
use std::alloc::{AllocError, Global};

/// Maximum number of settings of a file for which removable lines are searched.
const MOST: usize = 512;

/// The setting of a line.
#[derive(Clone, Copy)]
pub struct Numbered {
    /// The number of the line, from 1.
    pub line: u64,
    /// The permission on its pages.
    pub setting: Run,
}

/// A line that can be removed without changing the map.
#[derive(Clone, Copy)]
pub struct IdleLine {
    /// The number of the line, from 1.
    pub line: u64,
    /// True if the line has no effect even where it is: it denies pages that have no permission anyway.
    pub redundant: bool,
}

/// A remark on all lines of a map file together.
#[derive(Drop)]
pub enum MapRemark {
    /// None: the lines do not form a map, or too many of them set something.
    Nothing,
    /// After this line there are too many ranges.
    TooManyAfter(u64),
    /// These lines can be removed together without changing the map.
    Idle(Vec<IdleLine>),
}

/// Applies settings one after another. Returns the line after which there are too many ranges, if there is one.
fn follow(map: &mut MapBuilder, settings: &[Numbered]) -> Result<Option<u64>, Memory>
    requires { All IsInside settings.now }
    ensures all { IfOk result (λ stopped. IfNone stopped (SetTo map.old settings.now map.new)) }
    ensures many { IfOk result (λ stopped.
        IfSome stopped (λ line. IsTooManyAfter line map.old settings.now)) }
{
    for numbered in settings {
        let setting = numbered.setting;
        match map.set_range(setting.first, setting.count, setting.perm) {
            Ok(()) => {}
            Err(MapFault::Memory) => return Err(AllocError),
            Err(MapFault::TooManyRanges) => return Ok(Some(numbered.line)),
            Err(MapFault::PastEnd) => unreachable!(),
        }
    }
    Ok(None)
}

/// Returns the map of some settings followed by others, unless there are too many ranges.
pub fn map_of_both(
    alloc: Global,
    kept: &[Numbered],
    rest: &[Numbered],
) -> Result<Option<PermissionMap>, Memory>
    requires kept { All IsInside kept.now }
    requires rest { All IsInside rest.now }
    ensures made { IfOk result (λ made. IfSome made (SetTo [] (kept.now ++ rest.now))) }
    ensures many { IfOk result (λ made. IfNone made
        ((n : ℕ) × IsTooManyAfter n [] (kept.now ++ rest.now))) }
{
    let mut map = MapBuilder::new(alloc);
    if let Some(_) = follow(&mut map, kept)? {
        return Ok(None);
    }
    if let Some(_) = follow(&mut map, rest)? {
        return Ok(None);
    }
    let map = map.finish()?;
    Ok(Some(map))
}

/// Returns whether two maps are equal.
fn is_same(one: &PermissionMap, other: &PermissionMap) -> bool
    ensures same { result ≡ true → one.now ≡ other.now }
    ensures different { result ≡ false → one.now ≢ other.now }
{
    one.ranges() == other.ranges()
}

/// Returns whether a setting removes all permissions.
fn denies(setting: &Run) -> bool
    ensures yes { result ≡ true → setting.now.perm ≡ NoAccess }
    ensures no { result ≡ false → setting.now.perm ≢ NoAccess }
{
    setting.perm == Perm::NoAccess
}

/// Returns whether no page of a setting has a permission.
fn is_denied(map: &PermissionMap, setting: &Run) -> bool
    requires { end_of setting.now ≤ 2 ^ 44 }
    ensures yes { result ≡ true → IsDeniedOn map.now setting.now }
    ensures no { result ≡ false → IsAllowedOn map.now setting.now }
{
    let Some(run) = map.next_run(setting.first) else {
        return true;
    };
    run.first.max(setting.first) >= setting.first + setting.count
}

/// Returns the map of settings that form one.
fn map_of_kept(alloc: Global, kept: &[Numbered]) -> Result<PermissionMap, Memory>
    requires inside { All IsInside kept.now }
    requires made { (map : List Run) × SetTo [] kept.now map }
    ensures { IfOk result (SetTo [] kept.now) }
{
    let mut map = MapBuilder::new(alloc);
    if let Some(_) = follow(&mut map, kept)? {
        unreachable!();
    }
    let map = map.finish()?;
    Ok(map)
}

/// Returns whether a setting has no effect after others, because it denies pages that have no permission.
fn is_redundant_denial(alloc: Global, kept: &[Numbered], setting: &Run) -> Result<bool, Memory>
    requires setting { end_of setting.now ≤ 2 ^ 44 }
    requires inside { All IsInside kept.now }
    requires made { (map : List Run) × SetTo [] kept.now map }
    ensures { IfOk result (IsRedundantDenial kept.now setting.now) }
{
    if !denies(setting) {
        return Ok(false);
    }
    let map = map_of_kept(alloc, kept)?;
    Ok(is_denied(&map, setting))
}

/// Returns whether some settings followed by others give the whole map.
fn is_whole(
    alloc: Global,
    kept: &[Numbered],
    rest: &[Numbered],
    whole: &PermissionMap,
) -> Result<bool, Memory>
    requires kept { All IsInside kept.now }
    requires rest { All IsInside rest.now }
    ensures yes { result ≡ Ok true → SetTo [] (kept.now ++ rest.now) whole.now }
    ensures no { result ≡ Ok false → LeadElsewhere (kept.now ++ rest.now) whole.now }
{
    let Some(other) = map_of_both(alloc, kept, rest)? else {
        return Ok(false);
    };
    Ok(is_same(&other, whole))
}

/// Appends a line.
fn name_line(idle: &mut Vec<IdleLine>, line: u64, redundant: bool) -> Result<(), AllocError>
    ensures { OnOk result (idle.new.items
        ≡ idle.old.items ++ record { line = line; redundant = redundant } ∷ []) }
{
    idle.push(IdleLine { line, redundant })?;
    Ok(())
}

/// Returns the settings that can be removed without changing the whole map. Each is removed for the rest of the search.
fn idle_lines(
    alloc: Global,
    settings: &[Numbered],
    whole: &PermissionMap,
) -> Result<Vec<IdleLine>, Memory>
    requires inside { All IsInside settings.now }
    requires whole { SetTo [] settings.now whole.now }
    ensures { IfOk result (λ idle. AreIdle settings.now whole.now idle.items) }
{
    let mut idle = Vec::new(alloc);
    let mut kept = Vec::new(alloc);
    for (i, numbered) in settings.iter().enumerate() {
        if is_whole(alloc, kept.as_slice(), &settings[i + 1..], whole)? {
            let redundant = is_redundant_denial(alloc, kept.as_slice(), &numbered.setting)?;
            name_line(&mut idle, numbered.line, redundant)?;
        } else {
            kept.push(*numbered)?;
        }
    }
    Ok(idle)
}

/// Returns the remark on all settings of a file, given whether they form a map: the line after which there are too many
/// ranges, if there is one; otherwise the lines of a map that can all be removed together, if few lines set something.
pub(crate) fn remark_on(
    alloc: Global,
    settings: &[Numbered],
    is_map: bool,
) -> Result<MapRemark, Memory>
    requires { All IsInside settings.now }
    ensures { IfOk result (IsRemark settings.now is_map) }
{
    let mut map = MapBuilder::new(alloc);
    if let Some(line) = follow(&mut map, settings)? {
        return Ok(MapRemark::TooManyAfter(line));
    }
    if !is_map {
        return Ok(MapRemark::Nothing);
    }
    if settings.len() > MOST {
        return Ok(MapRemark::Nothing);
    }
    let whole = map.finish()?;
    let idle = idle_lines(alloc, settings, &whole)?;
    Ok(MapRemark::Idle(idle))
}
