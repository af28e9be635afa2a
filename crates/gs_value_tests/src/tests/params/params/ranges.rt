//! The range of each parameter that has one of its own.
use super::*;

/// A parameter, the least and the greatest value that it may have, and the number of the refusal of
/// the values next to these.
static RANGES: [(&str, i64, i64, u8); 26] = [
    ("publish_threshold", -80_000_000, -10_000_000, 2),
    ("gossip_threshold", -50_000_000, -1, 2),
    ("w5", 0, 1_000_000_000, 3),
    ("w6", -1_000_000_000, 0, 3),
    ("w7", -1_000_000_000, 0, 3),
    ("p6_threshold", 1, 65_535, 3),
    ("topic_weight", 0, 1_000_000_000, 3),
    ("w1", 0, 1_000_000_000, 3),
    ("w2", 0, 1_000_000_000, 3),
    ("w3", -1_000_000_000, 0, 3),
    ("w3b", -1_000_000_000, 0, 3),
    ("w4", -1_000_000_000, 0, 3),
    ("heartbeat_ms", 1, 1_000_000_000, 4),
    ("decay_ms", 1, 1_000_000_000, 4),
    ("fanout_ttl_ms", 1, 1_000_000_000, 4),
    ("seen_ttl_ms", 1, 1_000_000_000, 4),
    ("iwant_followup_ms", 1, 1_000_000_000, 4),
    ("prune_backoff_s", 1, 86_400, 4),
    ("unsubscribe_backoff_s", 1, 86_400, 4),
    ("mcache_len", 3, 64, 4),
    ("mcache_gossip", 1, 5, 4),
    ("opportunistic_ticks", 1, 1_000_000, 4),
    ("max_ihave", 1, 1_000, 4),
    ("max_ihave_ids", 1, 5_000, 4),
    ("gossip_retransmission", 1, 1_000, 4),
    ("p1_quantum_ms", 1, 1_000_000_000, 4),
];

fn are_bounds(
    alloc: Global,
    name: &str,
    least: i64,
    greatest: i64,
    number: u8,
) -> Result<bool, AllocError> {
    Ok(
        refusal(alloc, &[(name, least)])? == 0
            && refusal(alloc, &[(name, least.saturating_sub(1))])? == number
            && refusal(alloc, &[(name, greatest)])? == 0
            && refusal(alloc, &[(name, greatest.saturating_add(1))])? == number,
    )
}

#[test]
fn each_range_has_its_bounds(rt: HostRuntime) -> Result<(), AllocError> {
    for (name, least, greatest, number) in &RANGES {
        assert!(rt;
            are_bounds(rt.alloc(), name, *least, *greatest, *number)?,
            "{name}"
        );
    }
    Ok(())
}

/// A parameter that may be 0 and has no sign, its greatest value, and the number of the refusal of the next value.
static FROM_0: [(&str, i64, u8); 16] = [
    ("opportunistic_threshold", 1_000_000_000_000, 2),
    ("gossip_factor", 1_000_000, 3),
    ("p7_decay", 1_000_000, 3),
    ("topic_cap", 1_000_000_000_000, 3),
    ("decay_to_zero", 1_000_000_000_000, 3),
    ("p2_decay", 1_000_000, 3),
    ("p3_decay", 1_000_000, 3),
    ("p3b_decay", 1_000_000, 3),
    ("p4_decay", 1_000_000, 3),
    ("p1_cap", 1_000_000_000_000, 3),
    ("p2_cap", 1_000_000_000_000, 3),
    ("p3_cap", 1_000_000_000_000, 3),
    ("p3_threshold", 1_000_000_000_000, 3),
    ("opportunistic_peers", 64, 4),
    ("p3_window_ms", 1_000_000_000, 4),
    ("p3_activation_ms", 1_000_000_000, 4),
];

fn is_from_0(alloc: Global, name: &str, greatest: i64, number: u8) -> Result<bool, AllocError> {
    Ok(
        refusal(alloc, &[(name, 0)])? == 0
            && refusal(alloc, &[(name, greatest)])? == 0
            && refusal(alloc, &[(name, greatest.saturating_add(1))])? == number,
    )
}

#[test]
fn each_range_from_0_has_its_bound(rt: HostRuntime) -> Result<(), AllocError> {
    for (name, greatest, number) in &FROM_0 {
        assert!(rt; is_from_0(rt.alloc(), name, *greatest, *number)?, "{name}");
    }
    Ok(())
}
