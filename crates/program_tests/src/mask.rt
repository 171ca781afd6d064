// Runs of `psr_mask`: every mask of four channels, and the search without masked channels.
mod cases;
mod files;
mod four;
mod plain;
mod rows;
mod running;
mod tests;
