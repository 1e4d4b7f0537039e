//! The numbers of sites and of tests.

/// The number of a site in its term: of an argument, a field or a call.
#[derive(Clone, Copy)]
pub struct SiteId(pub usize);

/// The number of a test, the same at each site.
#[derive(Clone, Copy)]
pub struct TestId(pub usize);
