//! The text format of Prometheus.
use std::alloc::{AllocError, Global};
use std::fmt;

/// The ms of a second.
const SECOND: u64 = 1_000;

/// The type of a metric.
#[derive(Clone, Copy)]
pub(crate) enum MetricType {
    Gauge,
    Counter,
    Summary,
}

/// A metric: its name, its type and what it means, which is a text without backslashes and line feeds.
#[derive(Clone, Copy)]
pub(crate) struct Metric {
    pub(crate) name: &'static str,
    pub(crate) metric_type: MetricType,
    pub(crate) help: &'static str,
}

/// A label of a sample: its name, and its value, which may be any text.
#[derive(Clone, Copy)]
pub(crate) struct MetricLabel<'a> {
    pub(crate) name: &'static str,
    pub(crate) value: &'a str,
}

/// The value of a sample.
#[derive(Clone, Copy)]
pub(crate) enum MetricValue {
    Count(u64),
    /// A number of ms, which is written in seconds.
    Millis(u64),
}

/// The value of a label, with backslashes, quotation marks and line feeds escaped.
#[derive(Clone, Copy)]
struct LabelValue<'a>(&'a str);

/// Metrics, and their samples.
#[derive(Drop)]
pub(crate) struct Exposition {
    alloc: Global,
    text: String,
}

impl fmt::Display for MetricType {
    fn fmt<W: fmt::Write>(&self, f: &mut fmt::Formatter<W>) -> fmt::Result {
        f.write_str(match self {
            MetricType::Gauge => "gauge",
            MetricType::Counter => "counter",
            MetricType::Summary => "summary",
        })
    }
}

impl fmt::Display for MetricValue {
    fn fmt<W: fmt::Write>(&self, f: &mut fmt::Formatter<W>) -> fmt::Result {
        match *self {
            MetricValue::Count(count) => write!(f, "{count}"),
            MetricValue::Millis(millis) => {
                let (whole, part) = (millis / SECOND, millis % SECOND);
                write!(f, "{whole}.{part:03}")
            }
        }
    }
}

impl fmt::Display for LabelValue<'_> {
    fn fmt<W: fmt::Write>(&self, f: &mut fmt::Formatter<W>) -> fmt::Result {
        for letter in self.0.chars() {
            match letter {
                '\\' => f.write_str("\\\\")?,
                '"' => f.write_str("\\\"")?,
                '\n' => f.write_str("\\n")?,
                _ => write!(f, "{letter}")?,
            }
        }
        Ok(())
    }
}

impl Exposition {
    /// Creates a text without metrics.
    pub(crate) fn new(alloc: Global) -> Exposition {
        Exposition {
            alloc,
            text: String::new(alloc),
        }
    }

    /// Begins a metric; its samples follow. The only error is out of memory.
    pub(crate) fn begin(&mut self, metric: Metric) -> Result<(), AllocError> {
        let Metric {
            name,
            metric_type,
            help,
        } = metric;
        let head = format!(in self.alloc; "# HELP {name} {help}\n# TYPE {name} {metric_type}\n")?;
        self.text.push_str(&head)
    }

    /// Appends a sample of a name with labels. The only error is out of memory.
    pub(crate) fn sample(
        &mut self,
        name: &str,
        labels: &[MetricLabel<'_>],
        value: MetricValue,
    ) -> Result<(), AllocError> {
        self.text.push_str(name)?;
        for (place, label) in labels.iter().enumerate() {
            self.text.push_str(if place == 0 { "{" } else { "," })?;
            let shown = LabelValue(label.value);
            let name = label.name;
            let text = format!(in self.alloc; "{name}=\"{shown}\"")?;
            self.text.push_str(&text)?;
        }
        let end = if labels.is_empty() { "" } else { "}" };
        let text = format!(in self.alloc; "{end} {value}\n")?;
        self.text.push_str(&text)
    }

    /// The text of all metrics so far.
    pub(crate) fn into_text(self) -> String {
        self.text
    }
}
