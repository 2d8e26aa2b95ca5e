//! What is printed, and how a run ends.
mod draws;
mod images;
mod inputs;
mod roles;
mod walks;
mod words;
