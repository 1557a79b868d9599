//! Configurations whose hosts are apart, and such as mix them.

use ev_types::Field;
use key_laws::keys_are_apart;
use sexp_config::read_config;
use std::alloc::Global;

/// What is noticed of one host depends on what comes of it alone.
const APART: &[&str] = &[
    "",
    "(streams index)",
    "(streams (expired (notice \"gone\")) index)",
    "(streams (by :host (notice \"n\")))",
    "(streams (by [:host :service] index (changed :state (notice \"n\"))))",
    "(streams (by [:service :state :host] (throttle 1 5 index)))",
    "(periodically-expire) (streams (by [:host :service] index))",
    "(periodically-expire 5 {:keep-keys [:tags :host]}) (streams (by :host index))",
    "(streams (by :host (with :service \"all\" index)))",
    "(streams (by :host (with {:state \"ok\" :owner \"me\"} (default :ttl 60 index))))",
    "(streams (by :host (by :state (with :state nil (notice \"n\")))))",
    "(streams (by :host (batch 2 5 (smap folds/sum (notice \"n\")))))",
    "(streams (by :host index) (by [:host :owner] (stable 5 :state index)))",
    "(streams (default :ttl 60 index) (sdo (tag \"t\" (by :host (coalesce (notice \"n\"))))))",
    "(streams (where (service \"cpu\") (by :host (runs 2 :state index)) (else (notice \"n\"))))",
];

/// It may depend on what comes of others.
const MIXED: &[&str] = &[
    "(streams (throttle 1 5 (notice \"n\")))",
    "(streams (by :host index) (throttle 1 5 (notice \"n\")))",
    "(streams (changed :state (by :host index)))",
    "(streams (by :state (batch 2 5 (notice \"n\"))))",
    "(streams (by :owner index))",
    "(streams (with :host \"a\" index))",
    "(streams (by :host (with :host \"a\" index)))",
    "(streams (by :host (default :host \"a\" index)))",
    "(streams (by :host (where (state \"ok\") index (else (with :host nil index)))))",
    "(periodically-expire 5 {:keep-keys [:service :tags]}) (streams (by :host index))",
    "(periodically-expire 5 {:keep-keys []}) (streams (by :host index))",
];

/// Hosts are apart, and a host's services are not.
const BY_HOST_ALONE: &[&str] = &[
    "(streams (by :host (throttle 1 5 index)))",
    "(streams (by [:host :state] (throttle 1 5 index)))",
    "(streams (by [:host :service] index (sdo (default {:ttl 5 :service \"a\"} index))))",
    "(periodically-expire 5 {:keep-keys [:host :tags]}) (streams (by [:host :service] index))",
];

/// Whether the test gives this answer for the configuration.
fn is_answer(alloc: Global, fields: &[Field], text: &str, wanted: bool) -> bool {
    match read_config(alloc, text.as_bytes()) {
        Ok(config) => keys_are_apart(fields, config.plan.plan(), &config.expiry) == wanted,
        Err(_) => false,
    }
}

/// Whether the test gives this answer for each of the configurations.
fn are_answers(alloc: Global, fields: &[Field], texts: &[&str], wanted: bool) -> bool {
    for text in texts {
        if !is_answer(alloc, fields, text, wanted) {
            return false;
        }
    }
    true
}

/// Whether the test of hosts gives this answer for each of the configurations.
fn are_hosts(alloc: Global, texts: &[&str], wanted: bool) -> bool {
    are_answers(alloc, &[Field::Host], texts, wanted)
}

/// Whether the test of hosts and services gives this answer for each of the configurations.
fn are_both(alloc: Global, texts: &[&str], wanted: bool) -> bool {
    are_answers(alloc, &[Field::Service, Field::Host], texts, wanted)
}

#[test]
fn configurations_keep_keys_apart(rt: HostRuntime) {
    let alloc = rt.alloc();
    assert!(rt; are_hosts(alloc, APART, true));
    assert!(rt; are_hosts(alloc, MIXED, false));
    assert!(rt; are_both(alloc, MIXED, false));
    assert!(rt; are_hosts(alloc, BY_HOST_ALONE, true));
    assert!(rt; are_both(alloc, BY_HOST_ALONE, false));
}
