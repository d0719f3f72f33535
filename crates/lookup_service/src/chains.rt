//! What is held of sessions that came one after another: definitions alone, in `specs/`, and the laws on them that other proofs use (this
//! profile's own).
