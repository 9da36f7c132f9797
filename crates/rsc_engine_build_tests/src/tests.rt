mod alternations;
mod build;
mod loops;
mod made;
mod sizes;
