//! The cache of the last gathered log.
ghost use Rattle.std.specs.Prelude.{◌≡◌, IfSome, IsSome};
ghost use Rattle.causal_protocol.specs.Run.{Run};
ghost use Rattle.causal_core.specs.Inside.GatherCaches.{log_to_gather, ChangesOnlyMemoryOf, IsGatherCache};

use causal_log::Log;
use causal_name::Pid;

/// The log that a process gathered at its last restart. It is valid while that process would gather the same again: no
/// other log has changed, and nothing was stored.
#[derive(Drop)]
pub struct GatherCache {
    pub by: Pid,
    pub log: Log,
}

/// Returns p's cached log, if there is one.
pub(crate) fn cached_log(gather_cache: &Option<GatherCache>, p: Pid) -> Option<&Log>
    ensures log { (r : Run) → IsGatherCache r gather_cache.now →
        IfSome result (λ log. log.now.map ≡ log_to_gather r p) }
    ensures by { IsSome result → IfSome gather_cache.now (λ l. l.by ≡ p) }
{
    match gather_cache {
        Some(gather_cache) if gather_cache.by == p => Some(&gather_cache.log),
        _ => None,
    }
}

/// Returns a cache with a copy of the log that p gathered, or nothing if allocation failed.
pub(crate) fn cache_gathered(log: &Log, by: Pid) -> Option<GatherCache>
    ensures { IfSome result (λ l. (l.by ≡ by) × (l.log.map ≡ log.now.map)) }
{
    match log.try_clone() {
        Ok(log) => Some(GatherCache { by, log }),
        Err(_) => None,
    }
}

/// Drops the cache unless it is p's, since p's log changes.
pub(crate) fn invalidate_except(gather_cache: &mut Option<GatherCache>, p: Pid)
    ensures { (before after : Run) → IsGatherCache before gather_cache.old →
        ChangesOnlyMemoryOf p before after → IsGatherCache after gather_cache.new }
{
    if gather_cache.is_some() && cached_log(gather_cache, p).is_none() {
        drop(gather_cache.take());
    }
}
