//! What stream coders need: models.

pub mod model;
