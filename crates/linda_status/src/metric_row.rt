//! Rows of the metrics: how the numbers of a server are named.

use crate::metric::MetricId;

/// A value that goes up and down.
const GAUGE: &str = "gauge";

/// A value that only grows, from 0 at the start of the server.
const COUNTER: &str = "counter";

/// A number, and how it is named.
#[derive(Clone, Copy)]
pub(crate) struct MetricRow {
    pub(crate) figure: MetricId,
    /// The name of its metric, and its label, which others of that name have not.
    pub(crate) metric: &'static str,
    pub(crate) label: &'static str,
    /// Its name in JSON.
    pub(crate) key: &'static str,
    pub(crate) kind: &'static str,
    /// What it means; empty if the row before has the same metric.
    pub(crate) help: &'static str,
}

/// All of them, in their order.
pub(crate) const ROWS: [MetricRow; 25] = [
    MetricRow {
        figure: MetricId::Up,
        metric: "linda_up",
        label: "",
        key: "up",
        kind: GAUGE,
        help: "1 if the server is up, 0 if it is down.",
    },
    MetricRow {
        figure: MetricId::Tuples,
        metric: "linda_tuples",
        label: "",
        key: "tuples",
        kind: GAUGE,
        help: "Tuples that are kept, held ones too.",
    },
    MetricRow {
        figure: MetricId::Waits,
        metric: "linda_waits",
        label: "",
        key: "waits",
        kind: GAUGE,
        help: "Asks that wait for a tuple.",
    },
    MetricRow {
        figure: MetricId::OldestWait,
        metric: "linda_oldest_wait_seconds",
        label: "",
        key: "oldest_wait_seconds",
        kind: GAUGE,
        help: "Seconds for which the oldest of them waits.",
    },
    MetricRow {
        figure: MetricId::Holds,
        metric: "linda_holds",
        label: "",
        key: "holds",
        kind: GAUGE,
        help: "Tuples that are held for a client.",
    },
    MetricRow {
        figure: MetricId::OldestHold,
        metric: "linda_oldest_hold_seconds",
        label: "",
        key: "oldest_hold_seconds",
        kind: GAUGE,
        help: "Seconds for which the oldest of them is held.",
    },
    MetricRow {
        figure: MetricId::Clients,
        metric: "linda_clients",
        label: "",
        key: "clients",
        kind: GAUGE,
        help: "Clients for which a reply is kept.",
    },
    MetricRow {
        figure: MetricId::TakenByAbsent,
        metric: "linda_taken_by_absent",
        label: "",
        key: "taken_by_absent",
        kind: GAUGE,
        help: "Clients without a connection whose last message took a tuple.",
    },
    MetricRow {
        figure: MetricId::Connections,
        metric: "linda_connections",
        label: "",
        key: "connections",
        kind: GAUGE,
        help: "Connections that are open.",
    },
    MetricRow {
        figure: MetricId::Came,
        metric: "linda_connections_total",
        label: "",
        key: "connections_total",
        kind: COUNTER,
        help: "Connections that came.",
    },
    MetricRow {
        figure: MetricId::Deeds,
        metric: "linda_deeds_total",
        label: "",
        key: "deeds_total",
        kind: COUNTER,
        help: "Deeds: what was put, taken, missed or left.",
    },
    MetricRow {
        figure: MetricId::Used,
        metric: "linda_bank_bytes",
        label: "",
        key: "bank_bytes",
        kind: GAUGE,
        help: "Bytes of the bank in use that are taken.",
    },
    MetricRow {
        figure: MetricId::Limit,
        metric: "linda_bank_limit_bytes",
        label: "",
        key: "bank_limit_bytes",
        kind: GAUGE,
        help: "Bytes that a bank may take.",
    },
    MetricRow {
        figure: MetricId::Records,
        metric: "linda_records",
        label: "",
        key: "records",
        kind: GAUGE,
        help: "Records since the last snapshot.",
    },
    MetricRow {
        figure: MetricId::Next,
        metric: "linda_next_id",
        label: "",
        key: "next_id",
        kind: GAUGE,
        help: "The id that the next tuple gets.",
    },
    MetricRow {
        figure: MetricId::Full,
        metric: "linda_refusals_total",
        label: "{why=\"full\"}",
        key: "refusals_full",
        kind: COUNTER,
        help: "Refusals, by the reason.",
    },
    MetricRow {
        figure: MetricId::Busy,
        metric: "linda_refusals_total",
        label: "{why=\"busy\"}",
        key: "refusals_busy",
        kind: COUNTER,
        help: "",
    },
    MetricRow {
        figure: MetricId::TooMany,
        metric: "linda_refusals_total",
        label: "{why=\"toomany\"}",
        key: "refusals_toomany",
        kind: COUNTER,
        help: "",
    },
    MetricRow {
        figure: MetricId::Greetings,
        metric: "linda_refusals_total",
        label: "{why=\"greetings\"}",
        key: "refusals_greetings",
        kind: COUNTER,
        help: "",
    },
    MetricRow {
        figure: MetricId::Malformed,
        metric: "linda_refusals_total",
        label: "{why=\"malformed\"}",
        key: "refusals_malformed",
        kind: COUNTER,
        help: "",
    },
    MetricRow {
        figure: MetricId::Unserved,
        metric: "linda_unserved_total",
        label: "",
        key: "unserved_total",
        kind: COUNTER,
        help: "Connections that were not served.",
    },
    MetricRow {
        figure: MetricId::Late,
        metric: "linda_late_total",
        label: "",
        key: "late_total",
        kind: COUNTER,
        help: "Connections whose lease ran out.",
    },
    MetricRow {
        figure: MetricId::Groups,
        metric: "linda_groups_total",
        label: "",
        key: "groups_total",
        kind: COUNTER,
        help: "Groups of messages that were served.",
    },
    MetricRow {
        figure: MetricId::Messages,
        metric: "linda_group_messages_total",
        label: "",
        key: "group_messages_total",
        kind: COUNTER,
        help: "Messages in those groups.",
    },
    MetricRow {
        figure: MetricId::Took,
        metric: "linda_group_seconds_total",
        label: "",
        key: "group_seconds_total",
        kind: COUNTER,
        help: "Seconds for which the loops waited for the server and served those groups.",
    },
];
