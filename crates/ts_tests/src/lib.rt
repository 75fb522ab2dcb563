//! Tests of properties that only a call of the store or of a layer above it shows: images byte by byte, failing
//! devices, stale plans, a view that shows no history, texts of errors, and an allocator that refuses one request.
//! Depends on libraries, and nothing depends on it, so no other crate is proved again for its tests. All its code is
//! tests; it proves nothing.
#![tactic(auto)]

#[cfg(test)]
mod error_texts;
#[cfg(test)]
mod image_bytes;
#[cfg(test)]
mod image_devices;
#[cfg(test)]
mod images;
#[cfg(test)]
mod many_series;
#[cfg(test)]
mod refused;
#[cfg(test)]
mod request_devices;
#[cfg(test)]
mod script_devices;
#[cfg(test)]
mod stale_plans;
#[cfg(test)]
mod stores;
#[cfg(test)]
mod views;
