//! What is the same in each picture: colours, the patterns of ready ticks, and the legend.

/// Colours and lines. They differ in lightness, so that they can be told apart in print and without telling hues apart; marks
/// differ in shape besides.
pub(crate) const STYLE: &str = r##"<style>
text{font-family:sans-serif;font-size:11px;fill:#000}
.name{font-family:monospace;font-size:13px}
.heading{font-size:13px}
.number{text-anchor:middle}
.small,.again{font-size:10px;fill:#555}
.page{fill:#fff}
.base{stroke:#bbb;fill:none}
.grid{stroke:#ddd;fill:none}
.executing{fill:#0072b2}
.ready{fill:url(#ready)}
.preempted{fill:url(#preempted)}
.interrupted{fill:url(#interrupted)}
.blocked{fill:url(#blocked)}
.waiting{fill:#fff;stroke:#000;stroke-width:1}
.raised{fill:#e69f00}
.queued{fill:#000}
.held{fill:#cc79a7}
.activation{fill:#000}
.event{fill:#009e73}
.expiry{fill:#fff;stroke:#000;stroke-width:1.5}
.refused{fill:#fff;stroke:#d55e00;stroke-width:1.5}
.error{fill:#d55e00;stroke:#fff}
</style>
<defs><pattern id="ready" width="6" height="6" patternUnits="userSpaceOnUse">
<path d="M0 0h6v6h-6z" fill="#f4f4f4"/><path d="M-1 1l2-2M0 6l6-6M5 7l2-2" stroke="#999" stroke-width="1"/></pattern>
<pattern id="preempted" width="6" height="6" patternUnits="userSpaceOnUse">
<path d="M0 0h6v6h-6z" fill="#cfe3f2"/><path d="M-1 5l2 2M0 0l6 6M5 -1l2 2" stroke="#0072b2" stroke-width="1.5"/></pattern>
<pattern id="interrupted" width="6" height="6" patternUnits="userSpaceOnUse">
<path d="M0 0h6v6h-6z" fill="#cfe3f2"/><path d="M1.5 0v6M4.5 0v6" stroke="#0072b2" stroke-width="1"/></pattern>
<pattern id="blocked" width="6" height="6" patternUnits="userSpaceOnUse">
<path d="M0 0h6v6h-6z" fill="#fbe0d0"/><path d="M0 0l6 6M0 6l6-6" stroke="#d55e00" stroke-width="1.2"/></pattern></defs>
"##;

/// The legend, from its own corner on.
pub(crate) const LEGEND: &str =
    r#"<path class="executing" d="M0 4h28v14h-28z"/><text x="36" y="15">task running, routine executing</text>
<path class="ready" d="M0 28h28v14h-28z"/><text x="36" y="39">task ready, routine pending</text>
<path class="preempted" d="M0 52h28v14h-28z"/><text x="36" y="63">preempted: it has begun, a task runs</text>
<path class="interrupted" d="M0 76h28v14h-28z"/><text x="36" y="87">interrupted: it has begun, a routine runs</text>
<path class="blocked" d="M0 100h28v14h-28z"/><text x="36" y="111">blocked: a lower task runs</text>
<path class="waiting" d="M290 4h28v14h-28z"/><text x="326" y="15">task waiting</text>
<path class="raised" d="M290 33h28v4h-28z"/><text x="326" y="39">priority above the static one</text>
<path class="queued" d="M290 57h28v3h-28z"/><text x="326" y="63">more than one job</text>
<path class="held" d="M290 81h28v3h-28z"/><text x="326" y="87">holds a resource</text>
<path class="activation" d="M556 16l-4-8h8z"/><text x="578" y="15">activation, arrival</text>
<path class="event" d="M556 30l5 5-5 5-5-5z"/><text x="578" y="39">event set</text>
<path class="expiry" d="M556 55a4 4 0 1 1 0 8a4 4 0 1 1 0-8z"/><text x="578" y="63">alarm expires</text>
<path class="refused" d="M556 79a4 4 0 1 1 0 8a4 4 0 1 1 0-8zm-3 1l6 6m0-6l-6 6"/><text x="578" y="87">alarm expires, its action is refused</text>
<path class="error" d="M556 105l3-3 2 2-3 3 3 3-2 2-3-3-3 3-2-2 3-3-3-3 2-2z"/><text x="578" y="111">on a row: a service is refused; above it: an interrupt is lost</text>
"#;
