//! Whether a statement is within the limits of statements.

ghost use Rattle.std.specs.Prelude.{◌≡◌, ◌↔◌, ℕ, ◌+◌, ◌<◌, ◌≤◌, ◌^◌, length, map, IsTrue};
ghost use Rattle.std.specs.declared.cmp.Ordering.TheVariants.{Less};
ghost use Rattle.tree_node.specs.declared.node.Feature.{Feature};
ghost use Rattle.tree_node.specs.Each.{Each};
ghost use Rattle.tree_node.specs.Node.{feature_cmp, AreAscending};
ghost use Rattle.kernel_syntax.specs.Program.{AreFeatures, IsPattern, IsThreadSite, IsStmt};

use crate::stmt::{Pattern, Stmt, features};
use std::cmp::Ordering;
use tree_node::{Feature, Integer, MOST_ITEMS, compare_features};

/// Whether a statement is within its limits.
pub fn is_stmt(stmt: &Stmt) -> bool
    ensures { IsTrue result ↔ IsStmt stmt.now }
{
    match stmt {
        Stmt::Local { first, count, .. } => {
            1 <= *count && *count <= MOST_ITEMS && *first as u64 + (*count as u64) < LIMIT
        }
        Stmt::TellRec { fields, .. } => are_fields(fields.as_slice()),
        Stmt::TellProc { first, count, .. } => {
            *count as u32 <= MOST_ITEMS && *first as u64 + (*count as u64) < LIMIT
        }
        Stmt::Case { pattern, first, .. } => {
            is_pattern(pattern) && fits_behind(*first, features(pattern))
        }
        Stmt::Call { args, .. } => args.as_slice().len() <= MOST_ITEMS as usize,
        Stmt::Thread { at, .. } => is_thread_site(at),
        Stmt::Try { first, .. } => *first as u64 + 1 < LIMIT,
        _ => true,
    }
}

// Above all positions.
const LIMIT: u64 = 1 << 32;

fn is_thread_site(at: &Option<Integer>) -> bool
    ensures { IsTrue result ↔ IsThreadSite at.now }
{
    match at {
        Some(site) => 1 <= site.get(),
        None => true,
    }
}

fn is_pattern(pattern: &Pattern) -> bool
    ensures { IsTrue result ↔ IsPattern pattern.now }
{
    match pattern {
        Pattern::Rec(_, features) => are_features(features.as_slice()),
        _ => true,
    }
}

// Whether there are positions for identifiers of all features.
fn fits_behind(first: u32, features: &[Feature]) -> bool
    ensures { IsTrue result ↔ (first + length features.now < 2 ^ 32) }
{
    features.len() < LIMIT as usize && first as usize + features.len() < LIMIT as usize
}

// ---- features, of which there are at most 64

fn are_features(features: &[Feature]) -> bool
    ensures { IsTrue result ↔ AreFeatures features.now }
{
    1 <= features.len() && features.len() <= MOST_ITEMS as usize && are_ascending(features)
}

fn are_ascending(features: &[Feature]) -> bool
    ensures { IsTrue result ↔ AreAscending features.now }
{
    match features {
        [] => true,
        [first, others @ ..] => is_below_all(first, others) && are_ascending(others),
    }
}

fn is_below_all(first: &Feature, others: &[Feature]) -> bool
    ensures { IsTrue result ↔ Each (λ g. feature_cmp first.now g ≡ Less) others.now }
{
    match others {
        [] => true,
        [other, behind @ ..] => is_below(first, other) && is_below_all(first, behind),
    }
}

fn is_below(first: &Feature, other: &Feature) -> bool
    ensures { IsTrue result ↔ (feature_cmp first.now other.now ≡ Less) }
{
    matches!(compare_features(first, other), Ordering::Less)
}

// ---- the same for fields

fn are_fields(fields: &[(Feature, u32)]) -> bool
    ensures { IsTrue result ↔ AreFeatures (map (λ (f : Feature × ℕ). f.0) fields.now) }
{
    1 <= fields.len() && fields.len() <= MOST_ITEMS as usize && fields_ascend(fields)
}

fn fields_ascend(fields: &[(Feature, u32)]) -> bool
    ensures { IsTrue result ↔ AreAscending (map (λ (f : Feature × ℕ). f.0) fields.now) }
{
    match fields {
        [] => true,
        [first, others @ ..] => is_below_fields(&first.0, others) && fields_ascend(others),
    }
}

fn is_below_fields(first: &Feature, others: &[(Feature, u32)]) -> bool
    ensures { IsTrue result ↔ Each (λ g. feature_cmp first.now g ≡ Less) (map (λ (f : Feature × ℕ). f.0) others.now) }
{
    match others {
        [] => true,
        [other, behind @ ..] => is_below(first, &other.0) && is_below_fields(first, behind),
    }
}
