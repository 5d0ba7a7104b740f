// Least paths by exhaustive search: the program of the definition, for small inputs.
ghost use Rattle.std.specs.Prelude.{◌≡◌, ◌+◌, ◌<◌, ◌≤◌, ◌^◌, Bool, List, length, IsTrue, IsFalse, ◌↔◌};
ghost use Rattle.code_paths.specs.Paths as paths;
ghost use Rattle.code_paths.specs.Paths.{IsPath, Least, LeastTo, Unreached, Starts};
ghost use Rattle.code_paths.specs.Trial.{weight, Ends, IsFirst, BestBelow};
ghost use Rattle.std.specs.declared.option.Option.{Option};

use crate::CostPair;

/// The cost of the step whose register and input are at the start of `path`.
fn step_cost_of(pair: CostPair, path: &[bool]) -> u32
    requires long { 7 ≤ length path.now }
    ensures is { result ≡ paths.step_cost pair path.now }
    ensures small { result ≤ 8190 }
{
    let x = path[6] ^ (path[5] ^ (path[4] ^ (path[3] ^ path[0])));
    let y = path[6] ^ (path[4] ^ (path[3] ^ (path[1] ^ path[0])));
    let cost_x = if x { pair.x1 } else { pair.x0 };
    let cost_y = if y { pair.y1 } else { pair.y0 };
    cost_x as u32 + cost_y as u32
}

/// The total of a path: the sum of the costs of its coded bits. A path has six bits more than there are pairs.
pub fn path_cost(costs: &[CostPair], path: &[bool]) -> u32
    requires long { length path.now ≡ 6 + length costs.now }
    requires few { length costs.now ≤ 10 }
    ensures total { result ≡ paths.total costs.now path.now }
{
    let mut sum = 0u32;
    for k in 0..costs.len() {
        sum += step_cost_of(costs[k], &path[k..]);
    }
    sum
}

/// Whether these are the same six bits.
fn are_same(bits: &[bool], six: [bool; 6]) -> bool
    requires { length bits.now ≡ 6 }
    ensures { IsTrue result ↔ (bits.now ≡ six) }
{
    for k in 0..6usize {
        if bits[k] != six[k] {
            return false;
        }
    }
    true
}

/// Whether a path has this start and this end, if they are given.
fn fits(path: &[bool], start: Option<[bool; 6]>, end: Option<[bool; 6]>) -> bool
    requires long { 6 ≤ length path.now }
    ensures fits { IsTrue result ↔ (Starts start path.now × Ends end path.now) }
{
    let starts = match start {
        Some(six) => are_same(&path[..6], six),
        None => true,
    };
    let ends = match end {
        Some(six) => are_same(&path[path.len() - 6..], six),
        None => true,
    };
    starts && ends
}

/// Advances to the next list of bits in the order of the last differing position.
fn advance(path: &mut [bool])
    ensures size { length path.new ≡ length path.old }
    ensures next { weight path.old + 1 < 2 ^ length path.old → weight path.new ≡ weight path.old + 1 }
{
    for k in 0..path.len() {
        if !path[k] {
            path[k] = true;
            return;
        }
        path[k] = false;
    }
}

/// Whether a cost is less than that of the path found so far, if there is one.
fn is_better(cost: u32, so_far: (bool, u32)) -> bool
    ensures yes { IsTrue result → IsTrue so_far.0 → cost < so_far.1 }
    ensures no { IsFalse result → IsTrue so_far.0 × (so_far.1 ≤ cost) }
{
    !so_far.0 || cost < so_far.1
}

/// Keeps a path if it fits and is the first so far. Returns whether there is one, and its cost.
fn consider(
    start: Option<[bool; 6]>,
    end: Option<[bool; 6]>,
    costs: &[CostPair],
    path: &[bool],
    so_far: (bool, u32),
    best: &mut [bool],
) -> (bool, u32)
    requires path { length path.now ≡ 6 + length costs.now }
    requires best { length best.old ≡ 6 + length costs.now }
    requires few { length costs.now ≤ 10 }
    ensures size { length best.new ≡ length best.old }
    ensures best { BestBelow start end costs.now (weight path.now) so_far.0 so_far.1 best.old
        → BestBelow start end costs.now (weight path.now + 1) result.0 result.1 best.new }
{
    if !fits(path, start, end) {
        return so_far;
    }
    let cost = path_cost(costs, path);
    if !is_better(cost, so_far) {
        return so_far;
    }
    best.copy_from_slice(path);
    (true, cost)
}

/// Finds the least of all paths with this start and this end, if they are given. `path` is all zeros.
fn search(
    start: Option<[bool; 6]>,
    end: Option<[bool; 6]>,
    costs: &[CostPair],
    path: &mut [bool],
    best: &mut [bool],
) -> bool
    requires path { length path.old ≡ 6 + length costs.now }
    requires zeros { weight path.old ≡ 0 }
    requires best { length best.old ≡ 6 + length costs.now }
    requires few { length costs.now ≤ 10 }
    ensures size { length best.new ≡ length best.old }
    ensures first { IsTrue result → IsFirst start end costs.now best.new }
    ensures none { IsFalse result → (q : List Bool) → IsPath start costs.now q → Ends end q → ⊥ }
{
    let mut found = (false, 0u32);
    for _k in 0..1u32 << path.len() {
        found = consider(start, end, costs, path, found, best);
        advance(path);
    }
    found.0
}

/// Finds the least path over a list of cost pairs by exhaustive search, and writes it to `best`. The register at its
/// start is `start`, oldest bit first, or any. There are at most ten pairs.
pub fn least_path(start: Option<[bool; 6]>, costs: &[CostPair], best: &mut [bool]) -> bool
    requires best { length best.old ≡ 6 + length costs.now }
    requires few { length costs.now ≤ 10 }
    ensures size { length best.new ≡ length best.old }
    ensures least { IsTrue result → Least start costs.now best.new }
    ensures none { IsFalse result → (q : List Bool) → IsPath start costs.now q → ⊥ }
{
    let mut path = [false; 16];
    search(start, None, costs, &mut path[..best.len()], best)
}

/// Finds the least path that ends in the register `end` in the same way. Returns false exactly if there is none.
pub fn least_path_to(
    start: Option<[bool; 6]>,
    end: [bool; 6],
    costs: &[CostPair],
    best: &mut [bool],
) -> bool
    requires best { length best.old ≡ 6 + length costs.now }
    requires few { length costs.now ≤ 10 }
    ensures size { length best.new ≡ length best.old }
    ensures least { IsTrue result → LeastTo start costs.now end best.new }
    ensures none { IsFalse result → Unreached start costs.now end }
{
    let mut path = [false; 16];
    search(start, Some(end), costs, &mut path[..best.len()], best)
}
