//! A list of payloads.

use crate::TextList;

/// Payloads in order, each as its bytes.
pub type PayloadList = TextList;
